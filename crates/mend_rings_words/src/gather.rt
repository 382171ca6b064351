// The rings of lent segments as numbers.
ghost use Rattle.std.specs.Prelude.{◌≡◌, ◌≤◌, replicate};
ghost use Rattle.axis.specs.Limits.{most_segments};
ghost use Rattle.axis.specs.Link.{index_or};
ghost use Rattle.mend_rings_words.specs.Followed.{GatheredIn};
ghost use Rattle.words.specs.Segment.{segments_in};

use axis::limits::{MOST_EDGES, MOST_SEGMENTS};
use words::field::link_at;
use words::segment::{EDGE_PLACE, NEXT_PLACE, SEGMENT_WORDS};

// The index that a link holds, or another number where it holds none.
fn number_or(link: Option<u16>, none: u16) -> u16
    ensures { result ≡ index_or none link }
{
    match link {
        None => none,
        Some(k) => k,
    }
}

// The edge of each segment, where it has none the number of places for edges, and the segment behind it, where it has none the count; the lists hold nothing but zeros before.
pub fn gather_in(
    segments: &[i32],
    edges: &mut [u16; MOST_SEGMENTS],
    next: &mut [u16; MOST_SEGMENTS],
)
    requires { (segments_in segments.now ≤ most_segments) × (edges.old ≡ replicate most_segments 0) × (next.old ≡ replicate most_segments 0) }
    ensures { GatheredIn segments.now edges.new next.new }
{
    let n = segments.len() / SEGMENT_WORDS;
    for i in 0..n {
        let at = SEGMENT_WORDS * i;
        edges[i] = number_or(link_at(segments, at + EDGE_PLACE), MOST_EDGES as u16);
        next[i] = number_or(link_at(segments, at + NEXT_PLACE), n as u16);
    }
}
