// Segments and edges lent as words without counts: an axis with the segments alone that serve its edges.
#![tactic(auto)]

pub mod lend;
pub mod ring;
