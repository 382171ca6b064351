// What the display shows of an outline: definitions, and the laws of them: which pixels are white, how the counts are told, what changes neither number. It has no code: specs/ and proofs/
// are what it offers.
#![tactic(auto)]
