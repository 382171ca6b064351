// Document 02, #106: a shop's whole catalogue in one call. `align` has the public call, `counts` its refusals.
#![tactic(auto)]

pub mod align;
mod counts;
