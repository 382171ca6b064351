// Document 01, module 4: edges built where the words of segments and edges stand: `lend` has the call.
#![tactic(auto)]

mod edges;
pub mod lend;
pub mod pass;
pub mod products;
