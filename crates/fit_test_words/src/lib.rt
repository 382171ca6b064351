// The tests of fitting an axis in one call, over all that is given.
#![tactic(auto)]

pub mod front;
pub mod refuse;
