// Document 01, module 5, the calls that place one edge (the Rust's hint/edges.rs): by its link, by its serif, by its neighbours.
#![tactic(auto)]

pub mod adjust;
pub mod align;
pub mod bounds;
pub mod refusal;
