// What one line and one curve of an outline wind in a row of pixels (`line`), from places in the field (`place`).
#![tactic(auto)]

pub mod line;
pub mod place;
