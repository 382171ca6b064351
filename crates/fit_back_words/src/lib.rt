// Both rows on what is lent, in copies of which everything is put back beside a refusal on the way.
#![tactic(auto)]

mod back;
mod copied;
pub mod rooms;
mod tell;
