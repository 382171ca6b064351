// What the calls over lent words share: tests of their words, and the edges that words name.
#![tactic(auto)]

pub mod edges;
pub mod segments;
pub mod shown;
pub mod word;
