// Document 01, "What must change shape": the records of segments and edges (the Rust's topo/mod.rs), the two tables by value, and the
// refusals that the calls over them share.
#![tactic(auto)]

pub mod accept;
pub mod direction;
pub mod edge;
pub mod flags;
pub mod kinds;
pub mod limits;
pub mod segment;
