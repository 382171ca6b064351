// One call from edges to points: `lend` has the call, `rooms` what it copies to.
#![tactic(auto)]

pub mod lend;
mod rooms;
