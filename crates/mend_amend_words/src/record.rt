// One segment and one edge altered and listed, field by field.
ghost use Rattle.std.specs.Prelude.{◌≡◌, ◌<◌, ◌≤◌, ◌+◌, ◌*◌, length};
ghost use Rattle.mend.specs.Altered.{most_altered};
ghost use Rattle.words.specs.Edge.{edges_in};
ghost use Rattle.words.specs.Segment.{segments_in};
ghost use Rattle.words_edge.specs.Whole as Edges;
ghost use Rattle.words_segment.specs.Whole as Segments;
ghost use Rattle.mend_amend_words.specs.Listing.{alteration_size};
ghost use Rattle.mend_amend_words.specs.Amended.{AmendedSegment, AmendedLinks, AmendedEnds, AmendedEdge};

use super::amend::{Named, amend, amend_index};
use super::word::{end_word, next_word};
use words::edge::EDGE_WORDS;
use words::segment::SEGMENT_WORDS;
use words::word::read_word;
use words::{edge as of_edge, segment as of_segment};

// The numbers of the tables.
const SEGMENTS: u16 = 0;

const EDGES: u16 = 1;

// The numbers of the fields.
const LINK: u16 = 0;

const SERIF: u16 = 1;

const NEXT: u16 = 2;

const FIRST: u16 = 3;

const LAST: u16 = 4;

// A field of a record of a table.
fn field_of(table: u16, i: usize, field: u16) -> Named
    requires { i < 65536 }
    ensures { result ≡ record { table = table; index = i; field = field } }
{
    Named {
        table,
        index: i as u16,
        field,
    }
}

// Link, serif and next of segment i, which is of an edge, or of none, and is led to a segment.
pub fn amend_segment(
    segments: &mut [i32],
    i: usize,
    edge: u16,
    led: u16,
    room: &mut [i32],
    count: usize,
) -> usize
    requires { Segments.Whole segments.old × (i < segments_in segments.old) × (count + 3 ≤ most_altered) × (length room.old ≡ alteration_size * most_altered) }
    ensures { AmendedSegment i edge led count segments.old room.old result segments.new room.new }
{
    let n = segments.len() / SEGMENT_WORDS;
    let at = SEGMENT_WORDS * i;
    let link = field_of(SEGMENTS, i, LINK);
    let count = amend_index(segments, at + of_segment::LINK_PLACE, n, room, count, link);
    let serif = field_of(SEGMENTS, i, SERIF);
    let count = amend_index(
        segments,
        at + of_segment::SERIF_PLACE,
        n,
        room,
        count,
        serif,
    );
    let after = next_word(
        edge,
        led,
        read_word(segments, at + of_segment::NEXT_PLACE),
        n,
    );
    let next = field_of(SEGMENTS, i, NEXT);
    amend(
        segments,
        at + of_segment::NEXT_PLACE,
        after,
        room,
        count,
        next,
    )
}

// Link and serif of edge k.
fn amend_links(edges: &mut [i32], k: usize, room: &mut [i32], count: usize) -> usize
    requires { Edges.Whole edges.old × (k < edges_in edges.old) × (count + 2 ≤ most_altered) × (length room.old ≡ alteration_size * most_altered) }
    ensures { AmendedLinks k count edges.old room.old result edges.new room.new }
{
    let m = edges.len() / EDGE_WORDS;
    let at = EDGE_WORDS * k;
    let link = field_of(EDGES, k, LINK);
    let count = amend_index(edges, at + of_edge::LINK_PLACE, m, room, count, link);
    let serif = field_of(EDGES, k, SERIF);
    amend_index(edges, at + of_edge::SERIF_PLACE, m, room, count, serif)
}

// First and last of edge k, where its ring is broken.
fn amend_ends(
    edges: &mut [i32],
    k: usize,
    broken: bool,
    low: u16,
    high: u16,
    room: &mut [i32],
    count: usize,
) -> usize
    requires { Edges.Whole edges.old × (k < edges_in edges.old) × (count + 2 ≤ most_altered) × (length room.old ≡ alteration_size * most_altered) }
    ensures { AmendedEnds k broken low high count edges.old room.old result edges.new room.new }
{
    let at = EDGE_WORDS * k;
    let lowest = end_word(broken, low, read_word(edges, at + of_edge::FIRST_PLACE));
    let first = field_of(EDGES, k, FIRST);
    let count = amend(edges, at + of_edge::FIRST_PLACE, lowest, room, count, first);
    let highest = end_word(broken, high, read_word(edges, at + of_edge::LAST_PLACE));
    let last = field_of(EDGES, k, LAST);
    amend(edges, at + of_edge::LAST_PLACE, highest, room, count, last)
}

// Link, serif, first and last of edge k, whose ring is broken or not.
pub fn amend_edge(
    edges: &mut [i32],
    k: usize,
    broken: bool,
    low: u16,
    high: u16,
    room: &mut [i32],
    count: usize,
) -> usize
    requires { Edges.Whole edges.old × (k < edges_in edges.old) × (count + 4 ≤ most_altered) × (length room.old ≡ alteration_size * most_altered) }
    ensures { AmendedEdge k broken low high count edges.old room.old result edges.new room.new }
{
    let count = amend_links(edges, k, room, count);
    amend_ends(edges, k, broken, low, high, room, count)
}
