// The jobs of the calls from edges to points: edge points (call 128), strong points (call 131), and an axis in one call (call 129).
#![tactic(auto)]

pub mod edge_points_job;
mod rooms;
pub mod strong_job;
pub mod whole;
