// Whether the rings of lent edges are sound.
ghost use Rattle.std.specs.Prelude.{◌≡◌, ◌≤◌};
ghost use Rattle.axis.specs.Limits.{most_edges, most_segments};
ghost use Rattle.pack.specs.Call.{rings_sound};
ghost use Rattle.words.specs.Edge.{edges_in};
ghost use Rattle.words.specs.Segment.{segments_in, flat_segments};
ghost use Rattle.words_call.specs.Lent.{edges_of};
ghost use Rattle.pack_words.specs.Pack.{none_broken};

use axis::limits::{MOST_EDGES, MOST_SEGMENTS};
use mend::tally::tally;
use mend_rings_words::broken::find_broken;
use mend_rings_words::gather::gather_in;
use words::edge::EDGE_WORDS;
use words::segment::SEGMENT_WORDS;

// Whether none of the first m rings is broken.
fn none_broken(broken: &[bool; MOST_EDGES], m: usize) -> bool
    requires { m ≤ most_edges }
    ensures { result ≡ none_broken broken.now m }
{
    for k in 0..m {
        if broken[k] {
            return false;
        }
    }
    true
}

// Whether the ring of every edge is sound: each is followed in as many steps as the edge has segments.
pub fn rings_sound_in(segments: &[i32], edges: &[i32]) -> bool
    requires { (segments_in segments.now ≤ most_segments) × (edges_in edges.now ≤ most_edges) }
    ensures { result ≡ rings_sound (edges_of edges.now) (flat_segments segments.now) }
{
    let n = segments.len() / SEGMENT_WORDS;
    let mut owners = [0u16; MOST_SEGMENTS];
    let mut next = [0u16; MOST_SEGMENTS];
    gather_in(segments, &mut owners, &mut next);
    let mut counts = [0u16; MOST_EDGES];
    let mut lows = [0u16; MOST_EDGES];
    let mut highs = [0u16; MOST_EDGES];
    tally(&owners, n, &mut counts, &mut lows, &mut highs);
    let mut broken = [false; MOST_EDGES];
    find_broken(edges, &owners, &next, n, &counts, &mut broken);
    none_broken(&broken, edges.len() / EDGE_WORDS)
}
