// Request #113, an axis with the segments alone that serve its edges: what it is, that it is so, and the kept segments found in one pass.
#![tactic(auto)]

pub mod follow;
pub mod number;
