// The tests of the call behind those of its words.
ghost use Rattle.std.specs.Prelude.{◌≡◌, true, ◌≤◌, ◌<◌, length};
ghost use Rattle.refusals.specs.Outcome.{answer_of};
ghost use Rattle.refusals.specs.Refusal.{refusal};
ghost use Rattle.axis.specs.Segment.{segment_at};
ghost use Rattle.weak_contour.specs.Limits.{most_points};
ghost use Rattle.turn.specs.Indices.{segments_edges};
ghost use Rattle.words.specs.Edge.{edges_in};
ghost use Rattle.words.specs.Segment.{segments_in, flat_segments};
ghost use Rattle.words_call.specs.Lent.{edges_of};
ghost use Rattle.words_edge.specs.Whole as Edges;
ghost use Rattle.words_segment.specs.Whole as Segments;
ghost use Rattle.words_tables_test.specs.Held.{Held};
ghost use Rattle.edge_points.specs.EdgePoints.{segment_points, segments_points, mover_holds, movers_hold, points_tests};
ghost use Rattle.edge_points.specs.Steps.{points};

use super::pass::moves;
use super::segment::{edge_of, first_of, last_of};
use axis::accept::is_inside;
use edge_points::contour::{contour_of, is_on};
use refusals::order::{Refusal, require};
use weak::accept::ends_hold;
use weak::limits::MOST_COORDINATE;
use weak::reach::coordinates_hold;
use words::segment::SEGMENT_WORDS;
use words_edge::edge::read_edge;
use words_tables_test::test::{edges_ranged, segments_ranged, tables_indexed};

// Whether first and last of segment i are on one contour, where it has an edge.
fn segment_points(segments: &[i32], i: usize, ends: &[u16]) -> bool
    requires { Segments.Whole segments.now × (i < segments_in segments.now) }
    ensures { result ≡ segment_points ends.now (segment_at (flat_segments segments.now) i) (segment_at (flat_segments segments.now) i).edge }
{
    let link = edge_of(segments, i);
    let Some(_) = link else {
        return true;
    };
    let first = first_of(segments, i);
    let last = last_of(segments, i);
    is_on(contour_of(ends, first), last)
}

// Whether those of every segment are.
pub fn segments_points(segments: &[i32], ends: &[u16]) -> bool
    requires { Segments.Whole segments.now }
    ensures { result ≡ segments_points ends.now (flat_segments segments.now) }
{
    let n = segments.len() / SEGMENT_WORDS;
    for i in 0..n {
        if !segment_points(segments, i, ends) {
            return false;
        }
    }
    true
}

// Whether the position of the edge of segment i is a coordinate, where it has one that moves points.
fn mover_holds(segments: &[i32], i: usize, edges: &[i32], alone: bool) -> bool
    requires whole { Segments.Whole segments.now × (i < segments_in segments.now) }
    requires whole_2 { Edges.Whole edges.now × (segments_edges (edges_in edges.now) (flat_segments segments.now) ≡ true) }
    ensures { result ≡ mover_holds alone (edges_of edges.now) (segment_at (flat_segments segments.now) i).edge }
{
    let link = edge_of(segments, i);
    let Some(k) = link else {
        return true;
    };
    let edge = read_edge(edges, k as usize);
    if !moves(edge.flags.done, alone) {
        return true;
    }
    is_inside(edge.pos, -MOST_COORDINATE, MOST_COORDINATE)
}

// Whether that of every segment is.
pub fn movers_hold(segments: &[i32], edges: &[i32], alone: bool) -> bool
    requires whole { Segments.Whole segments.now }
    requires whole_2 { Edges.Whole edges.now × (segments_edges (edges_in edges.now) (flat_segments segments.now) ≡ true) }
    ensures { result ≡ movers_hold alone (edges_of edges.now) (flat_segments segments.now) }
{
    let n = segments.len() / SEGMENT_WORDS;
    for i in 0..n {
        if !mover_holds(segments, i, edges, alone) {
            return false;
        }
    }
    true
}

// The refusal of both tables, which need no test where they hold, and of an outline, if there is one.
pub fn points_refusal(
    segments: &[i32],
    edges: &[i32],
    held: bool,
    alone: bool,
    currents: &[i32],
    touched: &[u8],
    ends: &[u16],
) -> Result<(), Refusal>
    requires held { held ≡ true → Held segments.now edges.now }
    requires whole { Segments.Whole segments.now × Edges.Whole edges.now }
    requires currents_len_bound { (length currents.now ≤ most_points) × (length touched.now ≡ length currents.now) }
    ensures { answer_of result ≡ refusal (points_tests alone (edges_of edges.now) (flat_segments segments.now) (points currents.now touched.now) ends.now) }
{
    tables_indexed(segments, edges, held)?;
    require(ends_hold(ends, currents.len()), Refusal::BadIndex)?;
    require(segments_points(segments, ends), Refusal::BadIndex)?;
    require(segments_ranged(segments, edges, held), Refusal::OutOfRange)?;
    require(edges_ranged(segments, edges, held), Refusal::OutOfRange)?;
    require(
        coordinates_hold(currents, MOST_COORDINATE),
        Refusal::OutOfRange,
    )?;
    require(movers_hold(segments, edges, alone), Refusal::OutOfRange)
}
