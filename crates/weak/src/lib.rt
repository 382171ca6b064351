// Document 01, module 2: weak points (the Rust's hint/outline.rs). `weak` has the public call, `accept` its refusals.
#![tactic(auto)]

pub mod accept;
pub mod limits;
pub mod reach;
mod steep;
pub mod weak;
