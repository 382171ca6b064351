// Document 01, module 5: edges put on their blue zones where their words stand: `lend` has the call.
#![tactic(auto)]

pub mod lend;
pub mod pass;
mod store;
mod visit;
