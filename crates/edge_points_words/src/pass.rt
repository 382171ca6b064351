// The points of every segment moved by its edge.
ghost use Rattle.std.specs.Prelude.{◌≡◌, not, ◌||◌, ◌<◌, length};
ghost use Rattle.words.specs.Segment.{segments_in, flat_segments};
ghost use Rattle.words_call.specs.Lent.{edges_of};
ghost use Rattle.edge_points.specs.EdgePoints.{visit_segment, move_all};
ghost use Rattle.edge_points.specs.Steps.{reached, Reach, points};
ghost use Rattle.edge_points_words.specs.Steps.{Accepted};

use super::segment::{edge_of, first_of, last_of};
use edge_points::walk::move_walk;
use words::segment::SEGMENT_WORDS;
use words_edge::edge::read_edge;

// Whether an edge moves points: any does, or it is done.
pub fn moves(done: bool, alone: bool) -> bool
    ensures { result ≡ (not alone || done) }
{
    if alone {
        return done;
    }
    true
}

// Moves the points of segment i by its edge, where it has one that moves points.
fn move_segment(
    segments: &[i32],
    i: usize,
    edges: &[i32],
    snap: bool,
    alone: bool,
    currents: &mut [i32],
    touched: &mut [u8],
    ends: &[u16],
)
    requires accepted { Accepted segments.now edges.now alone (length currents.old) ends.now × (i < segments_in segments.now) }
    requires touched_len { (length touched.old ≡ length currents.old) × Reach (reached i) currents.old }
    ensures { points currents.new touched.new
        ≡ visit_segment snap alone (edges_of edges.now) (flat_segments segments.now) ends.now (points currents.old touched.old) i }
{
    let link = edge_of(segments, i);
    let Some(k) = link else {
        return;
    };
    let edge = read_edge(edges, k as usize);
    if !moves(edge.flags.done, alone) {
        return;
    }
    let first = first_of(segments, i);
    let last = last_of(segments, i);
    move_walk(currents, touched, ends, first, last, snap, edge);
}

// Moves the points of every segment, in the order of the table.
pub fn move_all(
    segments: &[i32],
    edges: &[i32],
    snap: bool,
    alone: bool,
    currents: &mut [i32],
    touched: &mut [u8],
    ends: &[u16],
)
    requires accepted { Accepted segments.now edges.now alone (length currents.old) ends.now }
    requires touched_len { (length touched.old ≡ length currents.old) × Reach (reached 0) currents.old }
    ensures { points currents.new touched.new
        ≡ move_all snap alone (edges_of edges.now) (flat_segments segments.now) ends.now (points currents.old touched.old) }
{
    let n = segments.len() / SEGMENT_WORDS;
    for i in 0..n {
        move_segment(segments, i, edges, snap, alone, currents, touched, ends);
    }
}
