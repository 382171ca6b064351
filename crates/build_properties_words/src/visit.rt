// The visit of an edge by the segments of its ring.
ghost use Rattle.std.specs.Prelude.{◌<◌};
ghost use Rattle.axis.specs.Ring.{members};
ghost use Rattle.build_properties.specs.Properties.{member, visit};
ghost use Rattle.build_properties.specs.Steps.{Ready};
ghost use Rattle.words.specs.Edge.{edges_in};
ghost use Rattle.words.specs.Segment.{segments_in, flat_segments};
ghost use Rattle.words_call.specs.Lent.{edges_of};
ghost use Rattle.words_edge.specs.Whole.{Whole, Became};
ghost use Rattle.build_properties_words.specs.Reading.{Shorts};

use super::read::{is_round, read_join, read_next};
use super::store::{end_in, take_link, take_serif};
use words::edge::{EDGE_WORDS, FIRST_PLACE, LAST_PLACE};
use words::field::index_of;
use words::word::read_word;

// The visit of one segment: edge k is joined to what it asks for.
fn member_in(segments: &[i32], edges: &mut [i32], k: usize, ix: u16)
    requires { Whole edges.old × Ready (edges_of edges.old) (flat_segments segments.now) × (k < edges_in edges.old) × (ix < segments_in segments.now) × Shorts segments.now }
    ensures { Became (member (flat_segments segments.now) k ix) edges.old edges.new }
{
    let join = read_join(segments, k, ix);
    let edge = join.edge;
    let Some(asked) = edge else {
        return;
    };
    if join.is_serif {
        take_serif(edges, k, join.delta, asked);
        return;
    }
    take_link(edges, k, join.delta, asked);
}

// The visit of edge k: its segments from the first to the last, of which the round and the straight ones are counted.
pub fn visit_in(segments: &[i32], edges: &mut [i32], k: usize)
    requires { Whole edges.old × Ready (edges_of edges.old) (flat_segments segments.now) × (k < edges_in edges.old) × Shorts segments.now }
    ensures { Became (visit (flat_segments segments.now) k (members (edges_of edges.old) (flat_segments segments.now) k))
        edges.old edges.new }
{
    let last = index_of(read_word(edges, EDGE_WORDS * k + LAST_PLACE));
    let mut ix = index_of(read_word(edges, EDGE_WORDS * k + FIRST_PLACE));
    let mut roundness: usize = 0;
    let mut straightness: usize = 0;
    // a loop: the next segment is read from the ring
    loop {
        member_in(segments, edges, k, ix);
        if is_round(segments, ix) {
            roundness += 1;
        } else {
            straightness += 1;
        }
        if ix == last {
            end_in(edges, k, roundness, straightness);
            return;
        }
        ix = read_next(segments, ix, last);
    }
}
