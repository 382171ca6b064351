// The guard: has a gap or a stem between placed edges been lost?
#![tactic(auto)]

pub mod find;
pub mod pair;
