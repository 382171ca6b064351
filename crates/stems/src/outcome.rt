// What the stem pass comes to.
use axis::edge::Axis;

// The count of edges passed over, the anchor or its absence, and the axis.
#[derive(Clone, Copy)]
pub struct Stems {
    pub count: usize,
    pub anchor: Option<u16>,
    pub axis: Axis,
}
