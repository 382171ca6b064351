// The refusals of a call: its tests in document 01's order, each with its number, of which the first that fails is the answer.
#![tactic(auto)]

pub mod order;
