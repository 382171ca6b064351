// Document 02, #103: the reply to one line of a log.
#![tactic(auto)]

pub mod reply;
