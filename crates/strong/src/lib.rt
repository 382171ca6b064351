// Strong points (the Rust's `align_strong_points`), beyond document 01: where a point comes to by the edges around it.
#![tactic(auto)]

pub mod place;
