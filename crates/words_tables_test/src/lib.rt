// The tests of lent segments and edges together, in a loop over each list, and the exact ones where it fails.
#![tactic(auto)]

pub mod hold;
pub mod test;
