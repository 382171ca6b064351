// Remaining edges (the Rust's `align_remaining_edges`): what the visit of an edge plans, by edges as values.
#![tactic(auto)]

pub mod kinds;
pub mod plan;
