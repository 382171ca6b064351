// Every segment and every edge altered and listed, one after the other.
ghost use Rattle.std.specs.Prelude.{◌≡◌, ◌≤◌, ◌+◌, ◌*◌, length};
ghost use Rattle.axis.specs.Limits.{most_edges};
ghost use Rattle.mend.specs.Altered.{most_altered};
ghost use Rattle.words_edge.specs.Whole as Edges;
ghost use Rattle.words_segment.specs.Whole as Segments;
ghost use Rattle.mend_amend_words.specs.Listing.{alteration_size};
ghost use Rattle.mend_amend_words.specs.Amended.{AmendedSegments, AmendedEdges};

use super::record::{amend_edge, amend_segment};
use axis::limits::{MOST_EDGES, MOST_SEGMENTS};
use words::edge::EDGE_WORDS;
use words::segment::SEGMENT_WORDS;

// Every segment, by its edge and what it is led to; tells how many alterations are listed.
pub fn amend_segments(
    segments: &mut [i32],
    edges: &[u16; MOST_SEGMENTS],
    next: &[u16; MOST_SEGMENTS],
    room: &mut [i32],
) -> usize
    requires { Segments.Whole segments.old × (length room.old ≡ alteration_size * most_altered) }
    ensures { AmendedSegments edges.now next.now segments.old room.old result segments.new room.new }
{
    let n = segments.len() / SEGMENT_WORDS;
    let mut count = 0;
    for i in 0..n {
        count = amend_segment(segments, i, edges[i], next[i], room, count);
    }
    count
}

// Every edge, by whether its ring is broken and the ends of a ring made anew; so many alterations are listed before.
pub fn amend_edges(
    edges: &mut [i32],
    broken: &[bool; MOST_EDGES],
    firsts: &[u16; MOST_EDGES],
    lasts: &[u16; MOST_EDGES],
    room: &mut [i32],
    before: usize,
) -> usize
    requires { Edges.Whole edges.old × (before + 4 * most_edges ≤ most_altered) × (length room.old ≡ alteration_size * most_altered) }
    ensures { AmendedEdges broken.now firsts.now lasts.now before edges.old room.old result edges.new room.new }
{
    let m = edges.len() / EDGE_WORDS;
    let mut count = before;
    for k in 0..m {
        count = amend_edge(edges, k, broken[k], firsts[k], lasts[k], room, count);
    }
    count
}
