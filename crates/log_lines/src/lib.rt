// Document 02, #103: the lines of a log, cut from its blocks as they come. `cutter` takes one line.
#![tactic(auto)]

pub mod cutter;
