// The tests of lent segments on their words, and the answer to them.
#![tactic(auto)]

pub mod exact;
pub mod hold;
pub mod read;
pub mod test;
