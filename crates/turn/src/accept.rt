// Tests of the indices that lead from segments to edges and back.
ghost use Rattle.std.specs.Prelude.{◌≡◌};
ghost use Rattle.turn.specs.Indices.{segments_edges, edges_segments};

use axis::accept::{EdgeTest, SegmentTest, every_edge, every_segment};
use axis::edge::Axis;
use axis::segment::Segments;

// Whether the edge of every segment is an edge.
pub fn segments_edges(table: Segments, count: usize) -> bool
    ensures { result ≡ segments_edges count table }
{
    every_segment(table, SegmentTest::Edge(count))
}

// Whether first and last of every edge are segments.
pub fn edges_segments(axis: Axis, count: usize) -> bool
    ensures { result ≡ edges_segments count axis }
{
    every_edge(axis, EdgeTest::Segments(count))
}
