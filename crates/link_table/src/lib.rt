// Document 01, module 3: CJK linking (topo/segments.rs of the Rust). `link` has the public call; its rounds are `link`.
#![tactic(auto)]

pub mod segments;
