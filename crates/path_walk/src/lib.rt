// Request #101, the way to the step of a number: through one contour (`walk`), and through all of them (`seek`).
#![tactic(auto)]

pub mod seek;
pub mod walk;
