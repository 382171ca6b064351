// The tests of lent edges in one loop over their words, and the exact refusal where it fails.
#![tactic(auto)]

pub mod exact;
pub mod hold;
pub mod test;
