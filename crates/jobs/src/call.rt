// Which call a word list is a job of.
use super::first::MOST_LENT;
use axis::accept::least;
use axis::limits::{MOST_EDGES, MOST_SEGMENTS};
use tool_lines::limits::MOST_NUMBERS;
use words::word::{count_at, count_word};
use words_shape::element::{Element, skip_elements};
use words_shape::field::{BYTE, CHOICE, DIRECTION, INDEX, LINK, Range, SHORT, WORD, skip_field};

// Segments or edges that a job can count, more than a call accepts.
const MOST_COUNTED: usize = 65535;

// The number of a step in a path.
const CURSOR: Range = Range {
    low: 0,
    high: 2147483647,
};

// The items of a job behind the call's word, by the digits of `skip_item`, the first item in the last digit. No item has digit 15: of this format nothing is a job.
const NONE: u64 = 0xf;

// The words of the calls without edges are below this.
const CALLS: usize = 27;

// The formats of these calls, by their words.
const FORMATS: [u64; CALLS] = [
    NONE, 0x11, // compute_mid_pos
    0x11, // compute_mid_delta
    0x8766, // align_weak_points
    0x1149, // link_segments_cjk
    NONE, // 5 to 14: none
    NONE, NONE, NONE, NONE, NONE, NONE, NONE, NONE, NONE, 0x8766, // path
    0xc8766, // path_step
    0x7888766, // align_catalogue
    0x8887, // remember_references
    0x888766, // align_with_references
    0x28766, // drag_point
    NONE, // 21 to 24: none
    NONE, NONE, NONE, 0x78766, // write_frame
    0x7, // read_frame
];

// The first word of the calls that carry edges, and how many words from it on are theirs and, behind them, that of what the display shows.
const FIRST_OF_EDGES: usize = 105;

const CALLS_OF_EDGES: usize = 28;

// The formats of these calls, by their words from the first on.
const FORMATS_OF_EDGES: [u64; CALLS_OF_EDGES] = [
    0x11113343a9, // compute_edges
    0x6333a, // align_edges_to_blues
    0x2263a, // align_linked_edge
    0x22a, // align_serif_edge
    0x332a, // adjust_link
    0x2a, // latin_remaining_bounds
    0x1226333a, // hint_normal_stem_cjk
    0x6353333a, // align_stem_edges
    0x3a, // hint_lowercase_m, table form
    0x3b, // hint_lowercase_m, lent list
    NONE, // 115 to 120: none
    NONE,
    NONE,
    NONE,
    NONE,
    NONE,
    0xa9, // mend
    0x633333a, // align_blues_and_stems
    0xa9, // pack_axis
    0xa9, // turn_over
    NONE, // 125 and 126: none
    NONE,
    0x31a, // lost_gaps
    0x87633a9, // align_edge_points
    0x87766d66a9, // fit_axis
    0x5233a, // align_remaining_edges
    0x7766da, // align_strong_points
    0x18766, // count_shown
];

// The format of the jobs of a call, by its word.
fn format_of(call: usize) -> u64 {
    if call < CALLS {
        return FORMATS[call];
    }
    if call < FIRST_OF_EDGES {
        return NONE;
    }
    let place = call - FIRST_OF_EDGES;
    if place < CALLS_OF_EDGES {
        return FORMATS_OF_EDGES[place];
    }
    NONE
}

// The place behind a list: its count, at most so much, and its elements, of which a job carries at most so many.
fn skip_list(
    words: &[i32],
    at: usize,
    kind: Element,
    most: usize,
    carried: usize,
) -> Option<usize> {
    let high = count_word(most);
    let counts = Range { low: 0, high };
    let Some(next) = skip_field(words, at, counts) else {
        return None;
    };
    skip_elements(words, next, kind, least(count_at(words, at), carried))
}

// The place behind an item.
fn skip_item(words: &[i32], at: usize, item: u64) -> Option<usize> {
    match item {
        1 => skip_field(words, at, WORD),
        2 => skip_field(words, at, INDEX),
        3 => skip_field(words, at, CHOICE),
        4 => skip_field(words, at, DIRECTION),
        5 => skip_field(words, at, LINK),
        6 => skip_list(words, at, Element::Number(WORD), MOST_NUMBERS, MOST_NUMBERS),
        7 => skip_list(words, at, Element::Number(BYTE), MOST_NUMBERS, MOST_NUMBERS),
        8 => skip_list(
            words,
            at,
            Element::Number(INDEX),
            MOST_NUMBERS,
            MOST_NUMBERS,
        ),
        9 => skip_list(words, at, Element::Segment, MOST_COUNTED, MOST_SEGMENTS),
        10 => skip_list(words, at, Element::Edge, MOST_COUNTED, MOST_EDGES),
        11 => skip_list(words, at, Element::Edge, MOST_LENT, MOST_LENT),
        12 => skip_field(words, at, CURSOR),
        13 => skip_list(
            words,
            at,
            Element::Number(SHORT),
            MOST_NUMBERS,
            MOST_NUMBERS,
        ),
        _ => None,
    }
}

// The call that a word list is a job of, by its word, and 0 where it is none.
pub fn job_of(words: &[i32]) -> usize {
    let call = count_at(words, 0);
    let mut items = format_of(call);
    let mut here = 1;
    // a while: each turn takes a digit off the number
    while 0 < items {
        let Some(next) = skip_item(words, here, items % 16) else {
            return 0;
        };
        here = next;
        items = items / 16;
    }
    if here == words.len() {
        return call;
    }
    0
}
