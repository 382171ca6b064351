// Document 01, module 2: the weak points of one contour (the Rust's hint/outline.rs). `weak` has the public call over all of them.
#![tactic(auto)]

pub mod contour;
pub mod iup;
pub mod steep;
