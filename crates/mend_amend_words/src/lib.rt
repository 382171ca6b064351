// Request #107 where the words of segments and edges stand: each word that is altered is set and listed at once.
#![tactic(auto)]

pub mod amend;
pub mod pass;
pub mod record;
pub mod word;
