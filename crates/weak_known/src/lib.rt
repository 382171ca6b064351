// Request #110: what is known of each point by touch marks and contour ends, in two lists: written, compared, and used to align. `weak_references` has the public calls.
#![tactic(auto)]

pub mod align;
pub mod contour;
pub mod matching;
pub mod number;
pub mod remember;
pub mod round;
pub mod same;
pub mod search;
pub mod write;
