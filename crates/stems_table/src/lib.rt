// Document 01, module 5: the stem pass (the Rust's `align_stem_edges`).
#![tactic(auto)]

pub mod align;
pub mod pass;
