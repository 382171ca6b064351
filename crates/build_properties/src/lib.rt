// Document 01, module 4: the properties of edges, from the segments of their rings (topo/edges.rs of the Rust). `build_properties` has the step of building,
// the others what it asks of single segments and edges.
#![tactic(auto)]

pub mod join;
pub mod outcome;
pub mod properties;
