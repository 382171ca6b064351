// What putting edges on their blue zones comes to.
use axis::edge::Axis;

// The anchor or its absence, and the axis.
#[derive(Clone, Copy)]
pub struct Anchored {
    pub anchor: Option<u16>,
    pub axis: Axis,
}
