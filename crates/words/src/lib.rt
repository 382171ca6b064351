// Edges and segments as words: how the records of a job stand as words and are read back, and one theory of records that stand one behind the other.
#![tactic(auto)]

pub mod edge;
pub mod field;
pub mod segment;
pub mod word;
