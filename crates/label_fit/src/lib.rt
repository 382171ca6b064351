// The steps of the sample label's chain over segments and edges, each with what it changed written.
#![tactic(auto)]

pub mod edges;
pub mod glyph;
pub mod topo;
