// The last steps of the sample label's chain: the points of an axis aligned, and the path of a glyph handed out.
#![tactic(auto)]

pub mod path_steps;
pub mod points;
