// Document 01, module 5: the CJK stem where the words of the edges stand: `lend` has the call.
#![tactic(auto)]

pub mod lend;
pub mod stem;
