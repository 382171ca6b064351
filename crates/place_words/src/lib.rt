// One edge placed by others where the words of the edges stand: `lend` has the calls.
#![tactic(auto)]

pub mod adjust;
pub mod align;
pub mod bounds;
pub mod lend;
