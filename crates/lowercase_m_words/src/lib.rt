// Document 01, module 6: the lowercase m rule, where the words of the edges stand: `lend` has the call.
#![tactic(auto)]

pub mod hint;
pub mod lend;
mod moves;
