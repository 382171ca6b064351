// Document 01, module 5: the call that places a CJK stem (the Rust's `hint_normal_stem_cjk`).
#![tactic(auto)]

pub mod hint;
