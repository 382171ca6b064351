// The properties of edges, where the words of edges and segments stand: what a segment asks for, and what becomes of an edge, is what `build_properties` says.
#![tactic(auto)]

pub mod pass;
mod read;
mod store;
mod visit;
