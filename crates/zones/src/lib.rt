// Document 01, module 5: what the visit of an edge with a blue zone does, which groups have zones, and what the pass and the call come to. `zones_table` has them by value, `zones_words` where
// the words stand.
#![tactic(auto)]

pub mod anchored;
pub mod group;
pub mod zone;
