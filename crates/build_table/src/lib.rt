// Document 01, module 4: edges from segments (topo/edges.rs of the Rust). `build` has the public call, the others its steps.
#![tactic(auto)]

pub mod compute;
pub mod products;
