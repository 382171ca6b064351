// Document 01, module 5: the numbers of the Latin stem (the default group's branch of the Rust's `align_stem_edges`).
#![tactic(auto)]

pub mod anchored;
mod centre;
pub mod first;
mod floor;
mod nearer;
mod thin;
mod trunc;
mod wide;
