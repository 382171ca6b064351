// Remaining edges: which edges are in order behind them, what the guard then sees, and that they change nothing where stems have passed over none.
// It has no code: specs/ and proofs/ are what it offers.
#![tactic(auto)]
