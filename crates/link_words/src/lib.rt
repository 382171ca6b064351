// Document 01, module 3: the three rounds of CJK linking where the words of the segments stand: `lend` has the call.
#![tactic(auto)]

pub mod lend;
pub mod pair;
pub mod rounds;
pub mod serif;
pub mod settle;
