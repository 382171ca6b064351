// Document 01, module 4: segments learn their edges, a step of building (topo/edges.rs of the Rust).
#![tactic(auto)]

pub mod mark;
