// Request #110: who refers to whom, found once and kept in two lists beside the outline. `remember` and `align` have the public calls, `refuse` their refusals.
#![tactic(auto)]

pub mod align;
mod refuse;
pub mod remember;
