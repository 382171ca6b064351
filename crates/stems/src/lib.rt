// Document 01, module 5: what the visit of a stem does, as a plan, and what the pass comes to. `stems_table` has the pass by value, `stems_words` where the words stand.
#![tactic(auto)]

mod cjk;
pub mod close;
pub mod kinds;
mod latin;
mod linked;
pub mod outcome;
pub mod plan;
pub mod store;
