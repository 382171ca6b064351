// Remaining edges over lent edges: no table is made.
#![tactic(auto)]

pub mod copied;
pub mod lend;
