// An axis of the sample label by one call, beside the steps of its chain.
#![tactic(auto)]

pub mod once;
