// Document 01, module 6: the lowercase m rule (the Rust's `hint_lowercase_m`), in table form.
#![tactic(auto)]

pub mod hint;
pub mod moves;
pub mod stems;
