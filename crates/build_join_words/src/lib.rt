// Segments join edges, read where their words stand in a lent list: the edges are lists of numbers, and no table is made.
#![tactic(auto)]

pub mod join;
mod place;
pub mod read;
mod settle;
