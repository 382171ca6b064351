// Edges lent as words without a count: the guard.
#![tactic(auto)]

pub mod find;
