// What is to be written, as lists of numbers.
ghost use Rattle.std.specs.Prelude.{◌≡◌, true, false, replicate};
ghost use Rattle.axis.specs.Limits.{most_edges, most_segments};
ghost use Rattle.turn.specs.Indices.{segments_edges};
ghost use Rattle.words.specs.Edge.{edges_in};
ghost use Rattle.words.specs.Segment.{flat_segments};
ghost use Rattle.words_edge.specs.Whole as Edges;
ghost use Rattle.words_segment.specs.Whole as Segments;
ghost use Rattle.mend_words.specs.Mending.{Planned};

use super::named::all_named;
use axis::limits::{MOST_EDGES, MOST_SEGMENTS};
use mend::rebuild::rebuild;
use mend::tally::tally;
use mend_rings_words::broken::find_broken;
use mend_rings_words::gather::gather_in;
use words::edge::EDGE_WORDS;
use words::segment::SEGMENT_WORDS;

// The edge of each segment, what each is led to, which rings are broken, and the lowest and the highest segment of each edge, or false where an edge has no segment; the lists hold nothing
// before.
pub fn plan_in(
    segments: &[i32],
    edges: &[i32],
    edge_of: &mut [u16; MOST_SEGMENTS],
    next: &mut [u16; MOST_SEGMENTS],
    broken: &mut [bool; MOST_EDGES],
    lows: &mut [u16; MOST_EDGES],
    highs: &mut [u16; MOST_EDGES],
) -> bool
    requires whole { Segments.Whole segments.now × Edges.Whole edges.now × (segments_edges (edges_in edges.now) (flat_segments segments.now) ≡ true) }
    requires edge_of_value { (edge_of.old ≡ replicate most_segments 0) × (next.old ≡ replicate most_segments 0) }
    requires broken_value { (broken.old ≡ replicate most_edges false) × (lows.old ≡ replicate most_edges 0) × (highs.old ≡ replicate most_edges 0) }
    ensures { Planned segments.now edges.now result edge_of.new next.new broken.new lows.new highs.new }
{
    let n = segments.len() / SEGMENT_WORDS;
    let m = edges.len() / EDGE_WORDS;
    gather_in(segments, edge_of, next);
    let mut counts = [0u16; MOST_EDGES];
    tally(edge_of, n, &mut counts, lows, highs);
    if !all_named(&counts, m) {
        return false;
    }
    find_broken(edges, edge_of, next, n, &counts, broken);
    rebuild(edge_of, n, broken, lows, next);
    true
}
