// Segments learn their edges where their words stand in a lent list: no table is made.
#![tactic(auto)]

pub mod mark;
