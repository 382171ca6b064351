// Jobs of the calls on tables, of segments or of edges, by the functions that gateways link or by value. A tool, for comparisons: proved safe.
#![tactic(auto)]

mod by_value;
pub mod gaps_job;
pub mod mending;
pub mod pack_job;
pub mod table;
