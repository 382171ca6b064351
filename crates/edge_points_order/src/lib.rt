// Where edges kept their order, points keep theirs: edge points, and weak points behind them. It has no code: specs/ and proofs/ are what it offers.
#![tactic(auto)]
