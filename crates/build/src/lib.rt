// Document 01, module 4: what building is told and what it hands back, its refusals and its definition. `build_table` has the call by value.
#![tactic(auto)]

pub mod built;
pub mod numbers;
pub mod told;
