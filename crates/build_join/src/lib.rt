// Document 01, module 4, first half: segments join edges (the loops of the Rust's `compute_edges`), up to the 128 edges of the table.
#![tactic(auto)]

pub mod join;
pub mod ring;
pub mod rules;
