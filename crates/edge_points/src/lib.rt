// From edges to points: definitions, and one segment: its contour found, and its points moved.
#![tactic(auto)]

pub mod contour;
pub mod walk;
