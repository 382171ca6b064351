// Document 01, module 3: CJK linking, its three rounds, its numbers, and what the call comes to. `link_table` has the call by value, `link_words` where the words stand.
#![tactic(auto)]

pub mod gap;
pub mod rounds;
pub mod serif;
pub mod stem;
pub mod thresholds;
