// What the display shows of an outline: how many pixels are black, and their Euler number. `count` has the public call, `lend` the same in lent places, `accept` the refusals.
#![tactic(auto)]

pub mod accept;
pub mod count;
pub mod lend;
