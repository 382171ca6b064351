// Request #101, a whole path written into lent lists in one pass: the kinds of its steps, and four numbers a step for their places. `lay` writes the steps of an
// outline, `put` one step.
#![tactic(auto)]

pub mod lay;
pub mod put;
