// Document 01, module 6: the lowercase m rule (the Rust's `hint_lowercase_m`) on a list of edges that the caller lends.
#![tactic(auto)]

pub mod hint;
mod table;
