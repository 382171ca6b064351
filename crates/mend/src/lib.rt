// Request #107: which rings of segments are sound, and rings made anew, over lists of numbers: the edge of each segment and the segment behind it. What an axis is mended to stands in specs.
#![tactic(auto)]

pub mod follow;
pub mod rebuild;
pub mod tally;
