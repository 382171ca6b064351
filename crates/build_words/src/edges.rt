// The edges of joined segments, written into the room for them.
ghost use Rattle.std.specs.Prelude.{◌≡◌, ◌<◌};
ghost use Rattle.std.specs.Int.{w32};
ghost use Rattle.std.proofs.Common.{SFits};
ghost use Rattle.fixed.specs.Point.{mul_fix};
ghost use Rattle.words.specs.Edge.{edges_in};
ghost use Rattle.words.specs.Segment.{segments_in};
ghost use Rattle.words.specs.Word.{written, joined};
ghost use Rattle.build_join_words.specs.Reading.{words_of};
ghost use Rattle.build_words.specs.Edges.{edge_between, listed_words, Room};

use axis::edge::Edge;
use axis::limits::MOST_EDGES;
use build_join::rules::{new_edge, with_last};
use build_join_words::read::read_segment;
use words::edge::{EDGE_WORDS, edge_words};
use words::word::write_words;

// The edge from its first segment to its last.
fn edge_between(words: &[i32], first: u16, last: u16, scale: i32) -> Edge
    requires { SFits w32 (mul_fix (words_of words.now first).pos scale) × (first < segments_in words.now) }
    ensures { result ≡ edge_between words.now scale first last }
{
    with_last(new_edge(read_segment(words, first), scale, first), last)
}

// Writes the edges of the lists into their room, which they fill.
pub fn write_edges(
    words: &[i32],
    room: &mut [i32],
    first: &[u16; MOST_EDGES],
    last: &[u16; MOST_EDGES],
    scale: i32,
)
    requires { Room words.now scale first.now (edges_in room.old) }
    ensures { room.new ≡ written room.old 0 (joined (listed_words words.now scale first.now last.now) (edges_in room.old)) }
{
    let count = room.len() / EDGE_WORDS;
    for k in 0..count {
        let edge = edge_between(words, first[k], last[k], scale);
        let made = edge_words(edge);
        write_words(room, EDGE_WORDS * k, &made);
    }
}
