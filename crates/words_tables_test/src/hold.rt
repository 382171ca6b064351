// Whether words are those of segments and edges that every call accepts which is given both: no record is made.
ghost use Rattle.std.specs.Prelude.{◌≡◌, true, ◌≤◌};
ghost use Rattle.axis.specs.Limits.{most_segments};
ghost use Rattle.turn.specs.Indices.{segments_edges, edges_segments};
ghost use Rattle.words.specs.Segment.{flat_segments};
ghost use Rattle.words_call.specs.Lent.{edges_of};
ghost use Rattle.words_edge.specs.Whole as Edges;
ghost use Rattle.words_segment.specs.Whole as Segments;
ghost use Rattle.words_tables_test.specs.Held.{indices_to, Held};

use words::edge::{EDGE_WORDS, FIRST_PLACE, LAST_PLACE};
use words::segment::{EDGE_PLACE, SEGMENT_WORDS};
use words_edge_test::hold::{edges_hold, links_to};
use words_segment_test::hold::segments_hold;
use words_shape::field::{Range, in_at};

// The values of an index of one of so many.
fn indices_to(n: usize) -> Range
    requires { n ≤ most_segments }
    ensures { result ≡ indices_to n }
{
    let last = (n as i32) - 1;
    Range { low: 0, high: last }
}

// Whether the edge of every segment is one of so many.
fn edges_named(segments: &[i32], count: usize) -> bool
    requires { Segments.Whole segments.now × (count ≤ most_segments) }
    ensures { result ≡ true → segments_edges count (flat_segments segments.now) ≡ true }
{
    let n = segments.len() / SEGMENT_WORDS;
    let links = links_to(count);
    for i in 0..n {
        if !in_at(segments, SEGMENT_WORDS * i + EDGE_PLACE, links) {
            return false;
        }
    }
    true
}

// Whether first and last of every edge are of so many segments.
fn segments_named(edges: &[i32], count: usize) -> bool
    requires { Edges.Whole edges.now × (count ≤ most_segments) }
    ensures { result ≡ true → edges_segments count (edges_of edges.now) ≡ true }
{
    let n = edges.len() / EDGE_WORDS;
    let indices = indices_to(count);
    for i in 0..n {
        let first = in_at(edges, EDGE_WORDS * i + FIRST_PLACE, indices);
        let last = in_at(edges, EDGE_WORDS * i + LAST_PLACE, indices);
        if !(first && last) {
            return false;
        }
    }
    true
}

// Whether the words are those of segments and edges, and every call that is given both accepts them.
pub fn tables_hold(segments: &[i32], edges: &[i32]) -> bool
    ensures { result ≡ true → Held segments.now edges.now }
{
    if !segments_hold(segments, true) {
        return false;
    }
    if !edges_hold(edges) {
        return false;
    }
    if !edges_named(segments, edges.len() / EDGE_WORDS) {
        return false;
    }
    segments_named(edges, segments.len() / SEGMENT_WORDS)
}
