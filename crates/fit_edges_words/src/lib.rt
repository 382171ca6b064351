// The edges of an axis fitted in one row, where their words stand: blue zones and stems, the m rule, remaining edges and the guard, behind one test of the edges.
#![tactic(auto)]

mod begin;
mod hold;
pub mod row;
