// The calls on tables by value, from the words of their jobs to the words that they hand back, for comparisons beside the library, which works on the words. A tool:
// proved safe.
#![tactic(auto)]

pub mod edges;
pub mod guard;
pub mod segments;
mod tables;
