// Frames (document 02, #103): a weak-point job as one line of a log. `write` and `read` have the public calls, `fits` and `good` what they refuse.
#![tactic(auto)]

mod fits;
mod good;
pub mod limits;
pub mod read;
pub mod write;
