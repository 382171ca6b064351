// What building comes to.
use axis::edge::Axis;
use axis::segment::Segments;

// The segments, each with its edge, and the edges.
#[derive(Clone, Copy)]
pub struct Built {
    pub segments: Segments,
    pub axis: Axis,
}
