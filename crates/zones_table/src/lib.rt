// Document 01, module 5: edges put on their blue zones, by value (the Rust's `align_edges_to_blues`): `pass` visits every edge, `align` is the call.
#![tactic(auto)]

pub mod align;
pub mod pass;
