// The calls in a row: what one hands back the next accepts. It has no code: proofs/ is what it offers.
#![tactic(auto)]
