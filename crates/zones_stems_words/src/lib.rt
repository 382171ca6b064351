// Edges lent as words without a count, for blue zones and then stems.
#![tactic(auto)]

pub mod lend;
pub mod test;
