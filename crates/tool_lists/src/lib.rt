// What the jobs of every call share: their lists, read and written, and the length of the longest answer. A tool, for comparisons: proved safe.
#![tactic(auto)]

pub mod limits;
pub mod list;
pub mod number;
