// Request #113 where the words of segments and edges stand: no table is made.
#![tactic(auto)]

pub mod down;
pub mod ends;
pub mod keep;
