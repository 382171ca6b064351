// Request #107 over lent segments and edges: no table is made.
#![tactic(auto)]

pub mod lend;
pub mod named;
pub mod plan;
pub mod test;
