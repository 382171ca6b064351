// What hinting a CJK stem comes to.
use axis::edge::Axis;

// What the stem was moved by, and the axis.
#[derive(Clone, Copy)]
pub struct StemCjk {
    pub delta: i32,
    pub axis: Axis,
}
