// Jobs of the calls on points. A tool, for comparisons: proved safe.
#![tactic(auto)]

pub mod catalogue;
pub mod drag;
mod float;
pub mod path_job;
pub mod references;
pub mod shown_job;
pub mod weak_job;
