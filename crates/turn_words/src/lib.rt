// Request #114: an axis turned over where the words of its edges and segments stand: `lend` has the call.
#![tactic(auto)]

pub mod lend;
pub mod pass;
pub mod test;
