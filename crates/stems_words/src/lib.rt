// Document 01, module 5: the stem pass where the words of the edges stand: `lend` has the call.
#![tactic(auto)]

pub mod lend;
pub mod pass;
pub mod store;
pub mod visit;
