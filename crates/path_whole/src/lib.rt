// Request #101, the whole path in one call. `whole` has the public call, `room` its refusals.
#![tactic(auto)]

pub mod room;
pub mod whole;
