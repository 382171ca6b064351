// Request #108: blue zones and then stems in one call, its definition and its laws. It has no code: specs/ and proofs/ are what it offers.
#![tactic(auto)]
