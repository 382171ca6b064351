// Segments learn their edges (the Rust's `link_segments_to_edges`), once these have their places.
ghost use Rattle.std.specs.Prelude.{◌≡◌, ◌≤◌};
ghost use Rattle.axis.specs.Limits.{most_edges, most_segments};
ghost use Rattle.build_mark.specs.Marks.{forgotten, cleared, member_of};
ghost use Rattle.build_mark.specs.Steps.{marked, Ended};

use axis::edge::Axis;
use axis::limits::MOST_SEGMENTS;
use axis::segment::{Segment, Segments};

// The segment without edge and next.
fn forget(segment: Segment) -> Segment
    ensures { result ≡ forgotten segment }
{
    Segment {
        edge: None,
        next: None,
        ..segment
    }
}

// The segments without edges and nexts.
fn forget_all(segments: Segments) -> Segments
    requires { segments.len ≤ most_segments }
    ensures { result ≡ cleared segments }
{
    let count = segments.len;
    let mut table = segments;
    for i in 0..count {
        let segment = table.segments[i];
        table.segments[i] = forget(segment);
    }
    table
}

// The segment as a member of an edge, with the segment behind it.
fn member_of(segment: Segment, edge: u16, next: u16) -> Segment
    ensures { result ≡ member_of segment edge next }
{
    Segment {
        edge: Some(edge),
        next: Some(next),
        ..segment
    }
}

// Each segment of an edge's ring gets the edge's index and its next; the others have neither.
pub fn link_segments_to_edges(
    segments: Segments,
    edges: Axis,
    next: [u16; MOST_SEGMENTS],
) -> Segments
    requires { (segments.len ≤ most_segments) × (edges.len ≤ most_edges) × Ended next edges }
    ensures { result ≡ marked next edges edges.len (cleared segments) }
{
    let count = edges.len;
    let mut table = forget_all(segments);
    for edge_ix in 0..count {
        let edge = edges.edges[edge_ix];
        let last = edge.last;
        let mut ix = edge.first;
        // a loop: the next segment is read from the ring
        loop {
            let at = ix as usize;
            let segment = table.segments[at];
            let after = next[at];
            table.segments[at] = member_of(segment, edge_ix as u16, after);
            if ix == last {
                break;
            }
            ix = after;
        }
    }
    table
}
