// One call from edges to points: where all edges are in order and positions are scaled by one scale, the touched points end in order. It has no code: specs/ and proofs/ are what it offers.
#![tactic(auto)]
