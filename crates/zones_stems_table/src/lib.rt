// Request #108: blue zones and then stems on the same edges, in one call.
#![tactic(auto)]

pub mod align;
