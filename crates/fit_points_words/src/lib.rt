// The points of an axis moved in one row, where its edges are fitted: edge points, strong points and weak points, without a test that holds already.
#![tactic(auto)]

pub mod row;
