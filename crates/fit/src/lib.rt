// One call from edges to points: the numbers of an axis, and what fitting its edges comes to. What the call is stands in specs/.
#![tactic(auto)]

pub mod numbers;
pub mod outcome;
