// Strong points where the words of the edges stand: the call over lent edges and the lent lists of an outline. `align` has the public call.
#![tactic(auto)]

pub mod align;
pub mod place;
pub mod refuse;
mod search;
