// What a visit is given beside the edges, and what it decides.
use axis::kinds::{Dimension, Group, Mark};
use fixed::width::WidthRule;

// What is the same for every visit of a pass.
#[derive(Clone, Copy)]
pub struct Mode {
    pub dim: Dimension,
    pub group: Group,
    pub stem_adjust: bool,
    pub rule: WidthRule,
}

// What CJK stems leave to the next one: the last one's position, where there is one, and the delta that is passed on.
#[derive(Clone, Copy)]
pub struct Trail {
    pub last: Option<i32>,
    pub delta: i32,
}

// What becomes of a stem's second edge: it stays, it is placed by its link to the first, or it is placed for good with the stem.
#[derive(Clone, Copy)]
pub enum Second {
    Stays,
    Placed(i32),
    Fixed(i32),
}

// What a visit does: the first edge's place for good and what gives it, the second edge's place, whether the first is then held to the previous edge, whether it becomes the
// anchor, and what is left to the next stem.
#[derive(Clone, Copy)]
pub struct Plan {
    pub first: i32,
    pub mark: Mark,
    pub second: Second,
    pub bounded: bool,
    pub anchors: bool,
    pub trail: Trail,
}
