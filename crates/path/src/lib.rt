// Request #101, the path for the rasteriser, one step a call. `hand` has the public call, `lend` the same in lent places, `accept` the refusals.
#![tactic(auto)]

pub mod accept;
pub mod hand;
pub mod lend;
