// Request #111: one touched point dragged, and only what depends on it fitted again. `drag` has the public call.
#![tactic(auto)]

mod around;
pub mod drag;
mod refit;
mod refuse;
