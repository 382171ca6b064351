// Remaining edges where their words stand: what a visit plans is `remaining`'s.
#![tactic(auto)]

mod find;
pub mod pass;
mod plan;
mod read;
mod store;
