// Document 01, module 1: the arithmetic that every other part leans on, with the helpers that the document completes.
#![tactic(auto)]

pub mod pixel;
pub mod point;
pub mod width;
