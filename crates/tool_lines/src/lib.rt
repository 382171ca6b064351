// Lines of text as words, for the programs that read jobs.
#![tactic(auto)]

pub mod limits;
pub mod line;
