// The digits of a line of a log (document 02, #103): `digit` has characters, `bytes` what two digits and two bytes stand for.
#![tactic(auto)]

pub mod bytes;
pub mod digit;
