// Document 01, module 5: how one edge is placed by others, and what the calls that place one are. `place_table` has them by value, `place_words` where the words stand.
#![tactic(auto)]

pub mod adjust;
pub mod bounds;
pub mod named;
pub mod place;
