// From edges to points, where the words of segments and edges stand: `align` has the call, `front` and `test` its tests, `pass` its work, `segment` what both read of one.
#![tactic(auto)]

pub mod align;
mod front;
pub mod pass;
mod segment;
pub mod test;
