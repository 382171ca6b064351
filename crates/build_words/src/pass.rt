// Edges built from segments: joined, written, and given their properties.
ghost use Rattle.std.specs.Prelude.{◌≡◌, length};
ghost use Rattle.axis.specs.Accepted.{SegmentsWithin};
ghost use Rattle.build_join.specs.Walks.{Joinable};
ghost use Rattle.words.specs.Edge.{table_size};
ghost use Rattle.words.specs.Segment.{flat_segments};
ghost use Rattle.words_segment.specs.Whole.{Whole};
ghost use Rattle.build_words.specs.Building.{Filling, BuiltIn, BuildsIn};

use super::edges::write_edges;
use axis::limits::{MOST_EDGES, MOST_SEGMENTS};
use build_join::rules::Rules;
use build_join_words::join::{Joining, join_in};
use build_mark_words::mark::mark_in;
use build_properties_words::pass::properties_in;
use words::edge::EDGE_WORDS;

// Writes the edges of the lists into their room, which they fill, tells the segments, and gives the edges their properties.
fn build_listed(
    segments: &mut [i32],
    room: &mut [i32],
    first: &[u16; MOST_EDGES],
    last: &[u16; MOST_EDGES],
    next: &[u16; MOST_SEGMENTS],
    rules: Rules,
)
    requires { Filling segments.old rules first.now last.now next.now room.old }
    ensures { BuiltIn segments.old rules segments.new room.new }
{
    write_edges(segments, room, first, last, rules.scale);
    mark_in(segments, first, last, next, room.len() / EDGE_WORDS);
    properties_in(segments, room);
}

// Builds the edges of segments into the front of the room for a table of them, and tells how many they are; nothing is written where a 129th is called for.
pub fn build_in(segments: &mut [i32], room: &mut [i32], rules: Rules) -> Joining
    requires { Whole segments.old × SegmentsWithin (flat_segments segments.old) × Joinable (flat_segments segments.old) rules × (length room.old ≡ table_size) }
    ensures { BuildsIn segments.old rules room.old result.full result.count segments.new room.new }
{
    let mut first = [0u16; MOST_EDGES];
    let mut last = [0u16; MOST_EDGES];
    let mut next = [0u16; MOST_SEGMENTS];
    let joined = join_in(segments, &mut first, &mut last, &mut next, rules);
    if joined.full {
        return joined;
    }
    let size = EDGE_WORDS * joined.count;
    build_listed(segments, &mut room[0..size], &first, &last, &next, rules);
    joined
}
