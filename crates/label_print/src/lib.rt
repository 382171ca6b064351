// What the sample label's program writes: texts, numbers and edges.
#![tactic(auto)]

pub mod edges;
pub mod print;
