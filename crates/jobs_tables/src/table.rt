// The calls on a table, of segments (4, 105 and 124) or of edges (106 to 113, 122 and 130): from the words of their jobs to those of their answers.
ghost use Rattle.std.specs.Prelude.{◌+◌, ◌*◌, ◌≤◌, length};
ghost use Rattle.tool_lists.specs.Limits.{longest};
ghost use Rattle.axis.specs.Limits.{most_segments};
ghost use Rattle.words.specs.Segment.{segment_size};

use super::by_value::ask_by_value;
use axis::accept::least;
use axis::limits::{MOST_EDGES, MOST_SEGMENTS};
use khsaemudol::{
    khs_adjust_link, khs_align_blues_and_stems, khs_align_edges_to_blues, khs_align_linked_edge,
    khs_align_remaining_edges, khs_align_serif_edge, khs_align_stem_edges, khs_compute_edges,
    khs_hint_lowercase_m, khs_hint_normal_stem_cjk, khs_latin_remaining_bounds,
    khs_link_segments_cjk, khs_turn_over,
};
use tool_lists::list::{list_at, part, put, put_list, tail};
use words::edge::{EDGE_WORDS, TABLE_WORDS};
use words::segment::SEGMENT_WORDS;
use words::word::{count_at, count_word, word_at};

// Whether a call hands back edges behind its table of segments.
fn has_edges(call: usize) -> bool {
    if call == 105 {
        return true;
    }
    call == 124
}

// Whether a call's table is one of segments.
fn has_segments(call: usize) -> bool {
    if call < 106 {
        return true;
    }
    has_edges(call)
}

// The words of a call's table of so many records, at most as many as its limit and so many more.
fn size(call: usize, count: usize, more: usize) -> usize
    requires { more ≤ 1 }
    ensures { result ≤ segment_size * (most_segments + 1) }
{
    if has_segments(call) {
        return SEGMENT_WORDS * least(count, MOST_SEGMENTS + more);
    }
    EDGE_WORDS * least(count, MOST_EDGES + more)
}

// How many words stand in front of the table in a call's answer.
fn words_before(call: usize) -> usize
    ensures { result ≤ 3 }
{
    match call {
        106 | 111 | 130 => 2,
        110 | 112 | 122 => 3,
        _ => 1,
    }
}

// Builds edges: the old table, dimension, major direction, group, order, scale and thresholds. The room for edges and the place for their count are given the old ones,
// which a refusal leaves there; an old table of more than its limit is refused here.
fn ask_building(segments: &mut [i32], rest: &[i32], edges: &mut [i32], count: &mut i32) -> u8 {
    let old = count_at(rest, 0);
    let n = EDGE_WORDS * least(old, MOST_EDGES);
    put(edges, 0, part(rest, 1, n));
    *count = count_word(old);
    if MOST_EDGES < old {
        return 1;
    }
    let behind = tail(rest, 1 + n);
    khs_compute_edges(
        segments,
        edges,
        word_at(behind, 0),
        word_at(behind, 1),
        word_at(behind, 2),
        word_at(behind, 3),
        word_at(behind, 4),
        word_at(behind, 5),
        word_at(behind, 6),
        word_at(behind, 7),
        count,
    )
}

// Turns edges over, which are put into their room, with their count beside; more than their limit are refused here.
fn ask_turning(segments: &mut [i32], rest: &[i32], edges: &mut [i32], count: &mut i32) -> u8 {
    let given = count_at(rest, 0);
    let n = put(
        edges,
        0,
        part(rest, 1, EDGE_WORDS * least(given, MOST_EDGES)),
    );
    *count = count_word(given);
    if MOST_EDGES < given {
        return 1;
    }
    khs_turn_over(segments, &mut edges[0..n])
}

// Places a stem edge: the width rule, the base edge and the stem edge.
fn ask_linked_edge(edges: &mut [i32], rest: &[i32]) -> u8 {
    let standards = list_at(rest, 1);
    let behind = tail(rest, 2 + standards.len());
    khs_align_linked_edge(
        edges,
        word_at(rest, 0),
        standards,
        word_at(behind, 0),
        word_at(behind, 1),
    )
}

// Places a CJK stem: dimension, stem adjust, the width rule, the two edges and the delta.
fn ask_stem(edges: &mut [i32], rest: &[i32], own_delta: &mut i32) -> u8 {
    let standards = list_at(rest, 3);
    let behind = tail(rest, 4 + standards.len());
    khs_hint_normal_stem_cjk(
        edges,
        word_at(rest, 0),
        word_at(rest, 1),
        word_at(rest, 2),
        standards,
        word_at(behind, 0),
        word_at(behind, 1),
        word_at(behind, 2),
        own_delta,
    )
}

// Aligns stems: dimension, group, stem adjust, top to bottom, the anchor and the width rule.
fn ask_stems(edges: &mut [i32], rest: &[i32], count: &mut i32, found: &mut i32) -> u8 {
    khs_align_stem_edges(
        edges,
        word_at(rest, 0),
        word_at(rest, 1),
        word_at(rest, 2),
        word_at(rest, 3),
        word_at(rest, 4),
        word_at(rest, 5),
        list_at(rest, 6),
        count,
        found,
    )
}

// Puts edges on their zones and aligns stems: dimension, group, stem adjust, top to bottom and the width rule.
fn ask_joined(edges: &mut [i32], rest: &[i32], count: &mut i32, found: &mut i32) -> u8 {
    khs_align_blues_and_stems(
        edges,
        word_at(rest, 0),
        word_at(rest, 1),
        word_at(rest, 2),
        word_at(rest, 3),
        word_at(rest, 4),
        list_at(rest, 5),
        count,
        found,
    )
}

// The answer of the library to a call on a table, whose other words are the rest, and what it hands back beside: a delta or a count first, else an index; edges that are built or turned over.
fn ask_library(
    call: usize,
    table: &mut [i32],
    rest: &[i32],
    edges: &mut [i32],
    first: &mut i32,
    second: &mut i32,
) -> u8 {
    let a = word_at(rest, 0);
    let b = word_at(rest, 1);
    let c = word_at(rest, 2);
    match call {
        4 => khs_link_segments_cjk(table, a, b, c),
        105 => ask_building(table, rest, edges, first),
        106 => {
            *first = -1;
            khs_align_edges_to_blues(table, a, b, c, list_at(rest, 3), first)
        }
        107 => ask_linked_edge(table, rest),
        108 => khs_align_serif_edge(table, a, b),
        109 => khs_adjust_link(table, a, b, c),
        110 => {
            *first = -1;
            khs_latin_remaining_bounds(table, a, first, second)
        }
        111 => ask_stem(table, rest, first),
        112 => ask_stems(table, rest, first, second),
        122 => ask_joined(table, rest, first, second),
        124 => ask_turning(table, rest, edges, first),
        130 => {
            *first = -1;
            khs_align_remaining_edges(table, a, b, c, word_at(rest, 3), first)
        }
        _ => khs_hint_lowercase_m(table, a),
    }
}

// The same by value, or by the library.
fn ask(
    by_value: bool,
    call: usize,
    table: &mut [i32],
    rest: &[i32],
    edges: &mut [i32],
    first: &mut i32,
    second: &mut i32,
) -> u8 {
    if by_value {
        return ask_by_value(call, table, rest, edges, first, second);
    }
    ask_library(call, table, rest, edges, first, second)
}

// Writes what a call handed back: the first words of the head in front of its table, which ends at a place, and behind that the edges that it built or turned over.
fn put_result(
    call: usize,
    out: &mut [i32],
    before: usize,
    end: usize,
    head: &[i32],
    edges: &[i32],
) -> usize
    requires { end ≤ length out.old }
    ensures { result ≤ length out.old }
{
    let at = put(out, 0, part(head, 0, before));
    if call == 110 {
        return at;
    }
    if !has_edges(call) {
        return end;
    }
    let built = count_at(head, 1);
    put_list(
        out,
        end,
        built,
        part(edges, 0, EDGE_WORDS * least(built, MOST_EDGES)),
    )
}

// Makes a call on the table of an answer, which stands behind the words in front of it and its count.
fn answer_call(
    by_value: bool,
    call: usize,
    rest: &[i32],
    out: &mut [i32],
    before: usize,
    lent: usize,
    end: usize,
) -> usize
    requires { (before + 1 + lent ≤ length out.old) × (end ≤ length out.old) }
    ensures { result ≤ length out.old }
{
    let from = before + 1;
    let to = from + lent;
    let mut edges = [0i32; TABLE_WORDS];
    let mut first = 0;
    let mut second = -1;
    let answer = ask(
        by_value,
        call,
        &mut out[from..to],
        rest,
        &mut edges,
        &mut first,
        &mut second,
    );
    let head = [answer as i32, first, second];
    put_result(call, out, before, end, &head, &edges)
}

// The answer to a job of a call on a table; the call is lent the answer's table. Of more records than its limit it is lent one more than that, which is empty.
pub fn answer_table(by_value: bool, call: usize, words: &[i32], out: &mut [i32]) -> usize
    requires { longest ≤ length out.old }
    ensures { result ≤ length out.old }
{
    let count = count_at(words, 1);
    let n = size(call, count, 0);
    let lent = size(call, count, 1);
    let before = words_before(call);
    let end = put_list(out, before, count, part(words, 2, n));
    put(out, end, &[0; SEGMENT_WORDS]);
    answer_call(by_value, call, tail(words, 2 + n), out, before, lent, end)
}
