// Request #101, the steps of a path, and where a contour starts and which points it then walks by, by index (`tour`) and by place (`trip`); below it `place` and `step`.
#![tactic(auto)]

pub mod place;
pub mod step;
pub mod tour;
pub mod trip;
