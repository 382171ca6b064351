// Tables from the words of a job, and back.
ghost use Rattle.std.specs.Prelude.{◌≡◌, length};
ghost use Rattle.words.specs.Segment.{segment_size};

use axis::accept::least;
use axis::edge::{Axis, empty_axis};
use axis::kinds::{Dimension, Direction};
use axis::limits::{MOST_EDGES, MOST_SEGMENTS};
use axis::segment::{Segment, Segments, empty_segments};
use words::edge::{EDGE_WORDS, edge_from, edge_words};
use words::field::{direction_word, flags_word, index_word, link_word, short_word};
use words::segment::SEGMENT_WORDS;
use words::word::write_words;
use words_segment_test::read::segment_from;

// The axis whose edges are a whole list.
pub fn axis_from(words: &[i32], dim: Dimension, major_dir: Direction) -> Axis {
    let mut axis = empty_axis(dim, major_dir);
    axis.len = words.len() / EDGE_WORDS;
    let n = least(words.len() / EDGE_WORDS, MOST_EDGES);
    for i in 0..n {
        let edge = edge_from(words, EDGE_WORDS * i);
        axis.edges[i] = edge;
    }
    axis
}

// The same for a call that reads neither its dimension nor its major direction.
pub fn axis_of(words: &[i32]) -> Axis {
    axis_from(words, Dimension::Horizontal, Direction::None)
}

// Writes the edges of an axis over a whole list, as many as it has room for.
pub fn write_edges(out: &mut [i32], axis: Axis) {
    let n = least(out.len() / EDGE_WORDS, MOST_EDGES);
    for i in 0..n {
        let edge = axis.edges[i];
        let words = edge_words(edge);
        write_words(out, EDGE_WORDS * i, &words);
    }
}

// The segments of a whole list.
pub fn segments_from(words: &[i32]) -> Segments {
    let mut table = empty_segments();
    table.len = words.len() / SEGMENT_WORDS;
    let n = least(words.len() / SEGMENT_WORDS, MOST_SEGMENTS);
    for i in 0..n {
        let segment = segment_from(words, SEGMENT_WORDS * i);
        table.segments[i] = segment;
    }
    table
}

// The words of a segment.
fn segment_words(segment: Segment) -> [i32; SEGMENT_WORDS]
    ensures { length result ≡ segment_size }
{
    let flags = segment.flags;
    let dir = segment.dir;
    let link = segment.link;
    let serif = segment.serif;
    let edge = segment.edge;
    let next = segment.next;
    [
        flags_word(flags),
        direction_word(dir),
        short_word(segment.pos),
        short_word(segment.delta),
        short_word(segment.min_coord),
        short_word(segment.max_coord),
        short_word(segment.height),
        segment.score,
        segment.len,
        link_word(link),
        link_word(serif),
        index_word(segment.first),
        index_word(segment.last),
        link_word(edge),
        link_word(next),
    ]
}

// Writes segments over a whole list, as many as it has room for.
pub fn write_segments(out: &mut [i32], table: Segments) {
    let n = least(out.len() / SEGMENT_WORDS, MOST_SEGMENTS);
    for i in 0..n {
        let segment = table.segments[i];
        let words = segment_words(segment);
        write_words(out, SEGMENT_WORDS * i, &words);
    }
}
