// Edges fitted: put on their zones, with the stems behind them, then the m rule and the edges that are left, whose jobs have no edges of their own; behind these
// the guard is asked.
use super::glyph::{ASKED_WORDS, Glyph, asked_of, edge_words, edges_of, stopped};
use super::topo::tail;
use axis::accept::least;
use axis::limits::MOST_EDGES;
use fit::outcome::TOLD_WORDS;
use khsaemudol::{
    khs_align_blues_and_stems, khs_align_remaining_edges, khs_hint_lowercase_m, khs_lost_gaps,
};
use label_print::edges::{BLUE, FITTED, changes, field};
use label_print::print::{refused, show, text};
use tool_lists::list::{put, put_list};
use words::edge::{EDGE_WORDS, TABLE_WORDS};
use words::word::{size_of, word_at};

// The edges of a glyph with the blues of a job's edges, one by one.
fn with_zones(words: &[i32], glyph: Glyph) -> [i32; TABLE_WORDS] {
    let zones = tail(words, 2);
    let mut edges = glyph.edges;
    for i in 0..least(glyph.count, MOST_EDGES) {
        edges[EDGE_WORDS * i + BLUE] = field(zones, i, BLUE);
        edges[EDGE_WORDS * i + FITTED] = field(zones, i, FITTED);
    }
    edges
}

// Writes which edge is the anchor.
fn anchored(anchor: i32) {
    if anchor < 0 {
        text(b"no anchor\n");
        return;
    }
    show(b"the anchor is edge #\n", &[anchor]);
}

// The glyph with what a step made of its edges and its anchor, and what it changed is written.
fn fitted(mut glyph: Glyph, edges: [i32; TABLE_WORDS], anchor: i32) -> Glyph {
    let before = glyph.edges;
    changes(&before, &edges, glyph.count);
    glyph.edges = edges;
    glyph.anchor = anchor;
    glyph
}

// Points come to their edge's position, and every edge moves its own, as in the Rust: what can be placed is placed by then.
pub const SNAP: i32 = 1;

pub const DONE_ALONE: i32 = 0;

// The guard is asked for gaps half a pixel wide and more, and for pairs of edges that have links.
const LEAST_GAP: i32 = 32;

const LINKED: i32 = 1;

// Where it stands among the numbers of an axis whether the glyph is an m.
const LOWERCASE_M: usize = 6;

// The numbers and standards of an axis by those of a fitting job, of a glyph that is no m.
fn asked_by(numbers: &[i32]) -> [i32; ASKED_WORDS] {
    let standards = tail(numbers, 6);
    let mut asked = [0i32; ASKED_WORDS];
    let words = [
        word_at(numbers, 0),
        word_at(numbers, 1),
        word_at(numbers, 2),
        SNAP,
        DONE_ALONE,
        word_at(numbers, 4),
        0,
        LEAST_GAP,
        LINKED,
    ];
    let at = put(&mut asked, 0, &words);
    put_list(&mut asked, at, standards.len(), standards);
    asked
}

// Writes that a gap or a stem between placed edges was lost, where the guard has found one.
fn warn(answer: u8, told: [i32; TOLD_WORDS]) {
    if answer == 0 {
        if told[3] < 0 {
            return;
        }
    }
    if refused(b"  guard     ", answer) {
        return;
    }
    show(
        b"# gaps and # stems lost, the first between edges # and #, width ~ -> ~, # edges not done\n",
        &[
            told[0], told[1], told[3], told[4], told[5], told[6], told[2],
        ],
    );
}

// The glyph with what the steps on its edges have told, of which the guard is the last; where it has found something, that is written.
fn guard(mut glyph: Glyph) -> Glyph {
    let edges = edges_of(glyph);
    let n = edge_words(glyph);
    let mut count = 0;
    let mut first = -1;
    let mut second = -1;
    let mut before = 0;
    let mut after = 0;
    let mut stems = 0;
    let mut not_done = 0;
    let answer = khs_lost_gaps(
        &edges[0..n],
        LEAST_GAP,
        LINKED,
        &mut count,
        &mut first,
        &mut second,
        &mut before,
        &mut after,
        &mut stems,
        &mut not_done,
    );
    let passed = glyph.passed;
    let anchor = glyph.anchor;
    let told = [
        count, stems, not_done, first, second, before, after, passed, anchor,
    ];
    warn(answer, told);
    glyph.told = told;
    glyph
}

// Puts the edges on the zones that a job gives them, and aligns the stems to the anchor and to each other.
pub fn fitting(words: &[i32], glyph: Glyph) -> Glyph {
    let numbers = tail(
        words,
        2 + EDGE_WORDS * least(size_of(word_at(words, 1)), MOST_EDGES),
    );
    let zoned = with_zones(words, glyph);
    let mut edges = zoned;
    let n = edge_words(glyph);
    let mut passed = 0;
    let mut anchor = -1;
    let answer = khs_align_blues_and_stems(
        &mut edges[0..n],
        word_at(numbers, 0),
        word_at(numbers, 1),
        word_at(numbers, 2),
        word_at(numbers, 3),
        word_at(numbers, 4),
        tail(numbers, 6),
        &mut passed,
        &mut anchor,
    );
    if refused(b"  fitting   ", answer) {
        return stopped(glyph);
    }
    show(b"# passed over, ", &[passed]);
    anchored(anchor);
    let mut glyph = fitted(glyph, edges, anchor);
    glyph.zoned = zoned;
    let asked = asked_by(numbers);
    glyph.asked = asked;
    glyph.passed = passed;
    glyph
}

// Applies the m rule.
pub fn m(words: &[i32], glyph: Glyph) -> Glyph {
    let mut edges = edges_of(glyph);
    let n = edge_words(glyph);
    let answer = khs_hint_lowercase_m(&mut edges[0..n], word_at(words, 2));
    if refused(b"  m rule    ", answer) {
        return stopped(glyph);
    }
    text(b"equal distances between the stems\n");
    let mut asked = asked_of(glyph);
    asked[LOWERCASE_M] = 1;
    let mut glyph = fitted(glyph, edges, glyph.anchor);
    glyph.asked = asked;
    glyph
}

// Whether the Rust asks for the edges that are left: where the stems have passed over some, or there is no anchor.
fn left(passed: i32, anchor: i32) -> bool {
    if 0 < passed {
        return true;
    }
    anchor < 0
}

// Places the edges that are left, by the count and the anchor that the stems handed back.
fn placed(words: &[i32], glyph: Glyph) -> Glyph {
    let mut edges = edges_of(glyph);
    let n = edge_words(glyph);
    let mut anchor = -1;
    let answer = khs_align_remaining_edges(
        &mut edges[0..n],
        word_at(words, 2),
        word_at(words, 3),
        glyph.passed,
        glyph.anchor,
        &mut anchor,
    );
    if refused(b"  remaining ", answer) {
        return stopped(glyph);
    }
    anchored(anchor);
    fitted(glyph, edges, anchor)
}

// Places the edges that are left, where there may be any, and asks the guard.
pub fn remaining(words: &[i32], mut glyph: Glyph) -> Glyph {
    if left(glyph.passed, glyph.anchor) {
        glyph = placed(words, glyph);
    }
    if glyph.refused {
        return glyph;
    }
    guard(glyph)
}
