// Records of several fields, runs of them, and the place behind each.
ghost use Rattle.std.specs.Prelude.{◌≡◌, ◌<◌, length, get_or};
ghost use Rattle.words_shape.specs.Shape.{no_range, fields, ranges_of, edge, element, elements, is_run, edges_shown, segments_shown};

use super::field::{CHOICE, DIRECTION, FLAGS, INDEX, LINK, MARK, Range, SHORT, WORD, skip_field};
use words::edge::{BLUE_PLACE, EDGE_WORDS, FITTED_PLACE};
use words::segment::SEGMENT_WORDS;
use words::word::word_at;

// A record of several words.
#[derive(Clone, Copy)]
pub enum Record {
    Segment,
    Edge,
}

// What a list holds.
#[derive(Clone, Copy)]
pub enum Element {
    Number(Range),
    Segment,
    Edge,
}

// The values of the fields of a segment.
pub const SEGMENT_FLAGS: Range = FLAGS;

pub const SEGMENT_DIR: Range = DIRECTION;

pub const SEGMENT_POS: Range = SHORT;

pub const SEGMENT_DELTA: Range = SHORT;

pub const SEGMENT_MIN: Range = SHORT;

pub const SEGMENT_MAX: Range = SHORT;

pub const SEGMENT_HEIGHT: Range = SHORT;

pub const SEGMENT_SCORE: Range = WORD;

pub const SEGMENT_LEN: Range = WORD;

pub const SEGMENT_LINK: Range = LINK;

pub const SEGMENT_SERIF: Range = LINK;

pub const SEGMENT_FIRST: Range = INDEX;

pub const SEGMENT_LAST: Range = INDEX;

pub const SEGMENT_EDGE: Range = LINK;

pub const SEGMENT_NEXT: Range = LINK;

// The words of a segment, each with its field's values.
const SEGMENT: [Range; SEGMENT_WORDS] = [
    SEGMENT_FLAGS,
    SEGMENT_DIR,
    SEGMENT_POS,
    SEGMENT_DELTA,
    SEGMENT_MIN,
    SEGMENT_MAX,
    SEGMENT_HEIGHT,
    SEGMENT_SCORE,
    SEGMENT_LEN,
    SEGMENT_LINK,
    SEGMENT_SERIF,
    SEGMENT_FIRST,
    SEGMENT_LAST,
    SEGMENT_EDGE,
    SEGMENT_NEXT,
];

// The values of the fields of an edge; a blue has two, whether it is there and its fitted position.
pub const EDGE_FPOS: Range = SHORT;

pub const EDGE_OPOS: Range = WORD;

pub const EDGE_POS: Range = WORD;

pub const EDGE_FLAGS: Range = FLAGS;

pub const EDGE_DIR: Range = DIRECTION;

pub const EDGE_BLUE: Range = CHOICE;

pub const EDGE_FITTED: Range = WORD;

pub const EDGE_LINK: Range = LINK;

pub const EDGE_SERIF: Range = LINK;

pub const EDGE_FIRST: Range = INDEX;

pub const EDGE_LAST: Range = INDEX;

pub const EDGE_MARK: Range = MARK;

// The words of an edge, each with its field's values.
const EDGE: [Range; EDGE_WORDS] = [
    EDGE_FPOS,
    EDGE_OPOS,
    EDGE_POS,
    EDGE_FLAGS,
    EDGE_DIR,
    EDGE_BLUE,
    EDGE_FITTED,
    EDGE_LINK,
    EDGE_SERIF,
    EDGE_FIRST,
    EDGE_LAST,
    EDGE_MARK,
];

// How many words a record has.
fn size(kind: Record) -> usize
    ensures { result ≡ length (ranges_of kind) }
{
    match kind {
        Record::Segment => SEGMENT_WORDS,
        Record::Edge => EDGE_WORDS,
    }
}

// The values of a record's word.
fn range_of(kind: Record, i: usize) -> Range
    requires { i < length (ranges_of kind) }
    ensures { result ≡ get_or (ranges_of kind) i no_range }
{
    match kind {
        Record::Segment => SEGMENT[i],
        Record::Edge => EDGE[i],
    }
}

// The place behind the fields of a record.
fn skip_record(words: &[i32], at: usize, kind: Record) -> Option<usize>
    ensures { result ≡ fields (ranges_of kind) words.now at }
{
    let n = size(kind);
    let mut here = at;
    for i in 0..n {
        here = skip_field(words, here, range_of(kind, i))?;
    }
    Some(here)
}

// The place behind an edge, whose fitted position is 0 where it has no blue.
fn skip_edge(words: &[i32], at: usize) -> Option<usize>
    ensures { result ≡ edge words.now at }
{
    let next = skip_record(words, at, Record::Edge)?;
    if word_at(words, at + BLUE_PLACE) == 1 {
        return Some(next);
    }
    if word_at(words, at + FITTED_PLACE) == 0 {
        return Some(next);
    }
    None
}

// The place behind an element of a list.
fn skip_element(words: &[i32], at: usize, kind: Element) -> Option<usize>
    ensures { result ≡ element kind words.now at }
{
    match kind {
        Element::Number(range) => skip_field(words, at, range),
        Element::Segment => skip_record(words, at, Record::Segment),
        Element::Edge => skip_edge(words, at),
    }
}

// The place behind n elements of a list.
pub fn skip_elements(words: &[i32], at: usize, kind: Element, n: usize) -> Option<usize>
    ensures { result ≡ elements n kind words.now at }
{
    let mut here = at;
    for i in 0..n {
        here = skip_element(words, here, kind)?;
    }
    Some(here)
}

// Whether a list is n elements and no more.
fn is_run(words: &[i32], kind: Element, n: usize) -> bool
    ensures { result ≡ is_run n kind words.now }
{
    let Some(end) = skip_elements(words, 0, kind, n) else {
        return false;
    };
    end == words.len()
}

// Whether a list is edges and no more.
pub fn is_edges(words: &[i32]) -> bool
    ensures { result ≡ edges_shown words.now }
{
    is_run(words, Element::Edge, words.len() / EDGE_WORDS)
}

// Whether a list is segments and no more.
pub fn is_segments(words: &[i32]) -> bool
    ensures { result ≡ segments_shown words.now }
{
    is_run(words, Element::Segment, words.len() / SEGMENT_WORDS)
}
