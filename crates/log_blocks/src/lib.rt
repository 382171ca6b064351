// Document 02, #103: a log answered block by block, as its bytes come.
#![tactic(auto)]

pub mod blocks;
