// Whether words are those of edges that every call accepts: one loop, and no edge made.
ghost use Rattle.std.specs.Prelude.{◌≡◌, true, ◌≤◌, ◌+◌, length, pos};
ghost use Rattle.signed.specs.Equality.{eq_z};
ghost use Rattle.axis.specs.Limits.{most_segments};
ghost use Rattle.words.specs.Word.{word_at};
ghost use Rattle.words.specs.Edge.{edge_size, blue_place, fitted_place};
ghost use Rattle.words_edge_test.specs.Held.{zone_test, links_to, FrontHeld, BackHeld, Held};

use axis::limits::{LEAST_POS, LEAST_UNITS, MOST_EDGES, MOST_POS, MOST_UNITS};
use words::edge::{
    BLUE_PLACE, DIR_PLACE, EDGE_WORDS, FIRST_PLACE, FITTED_PLACE, FLAGS_PLACE, LAST_PLACE,
    LINK_PLACE, MARK_PLACE, OPOS_PLACE, POS_PLACE, SERIF_PLACE,
};
use words::field::choice_of;
use words::word::read_word;
use words_shape::element::{
    EDGE_BLUE, EDGE_DIR, EDGE_FIRST, EDGE_FLAGS, EDGE_FPOS, EDGE_LAST, EDGE_MARK,
};
use words_shape::field::{LINK, Range, in_at};

// The place of an edge's original position in font units.
const FPOS_PLACE: usize = 0;

// The original positions that every call accepts, and the fitted ones of zones.
const UNITS: Range = Range {
    low: LEAST_UNITS,
    high: MOST_UNITS,
};

// The positions that every call accepts.
const POS: Range = Range {
    low: LEAST_POS,
    high: MOST_POS,
};

// The values of a link to one of so many, or to none.
pub fn links_to(n: usize) -> Range
    requires { n ≤ most_segments }
    ensures { result ≡ links_to n }
{
    let last = (n as i32) - 1;
    Range { high: last, ..LINK }
}

// Whether a word is 0.
fn is_zero(word: i32) -> bool
    ensures { result ≡ eq_z word (pos 0) }
{
    word == 0
}

// Whether the zone of an edge is one that every call accepts, or none.
fn zone_holds(words: &[i32], at: usize) -> bool
    requires { at + edge_size ≤ length words.now }
    ensures { result ≡ zone_test (word_at words.now (at + blue_place)) (word_at words.now (at + fitted_place)) }
{
    if choice_of(read_word(words, at + BLUE_PLACE)) {
        return in_at(words, at + FITTED_PLACE, UNITS);
    }
    is_zero(read_word(words, at + FITTED_PLACE))
}

// Whether the first four words of an edge are accepted: tested side by side, and not one behind the other.
fn front_holds(words: &[i32], at: usize) -> bool
    requires { at + edge_size ≤ length words.now }
    ensures { result ≡ true → FrontHeld words.now at }
{
    let fpos = in_at(words, at + FPOS_PLACE, EDGE_FPOS);
    let opos = in_at(words, at + OPOS_PLACE, UNITS);
    let pos = in_at(words, at + POS_PLACE, POS);
    let flags = in_at(words, at + FLAGS_PLACE, EDGE_FLAGS);
    fpos && opos && pos && flags
}

// Whether the other eight are, where link and serif have these values.
fn back_holds(words: &[i32], at: usize, links: Range) -> bool
    requires { at + edge_size ≤ length words.now }
    ensures { result ≡ true → BackHeld words.now at links }
{
    if !in_at(words, at + DIR_PLACE, EDGE_DIR) {
        return false;
    }
    if !in_at(words, at + BLUE_PLACE, EDGE_BLUE) {
        return false;
    }
    if !zone_holds(words, at) {
        return false;
    }
    if !in_at(words, at + LINK_PLACE, links) {
        return false;
    }
    if !in_at(words, at + SERIF_PLACE, links) {
        return false;
    }
    if !in_at(words, at + FIRST_PLACE, EDGE_FIRST) {
        return false;
    }
    if !in_at(words, at + LAST_PLACE, EDGE_LAST) {
        return false;
    }
    in_at(words, at + MARK_PLACE, EDGE_MARK)
}

// Whether the words are those of edges, and every call accepts them.
pub fn edges_hold(words: &[i32]) -> bool
    ensures { result ≡ true → Held words.now }
{
    let n = words.len() / EDGE_WORDS;
    if MOST_EDGES < n {
        return false;
    }
    if EDGE_WORDS * n < words.len() {
        return false;
    }
    let links = links_to(n);
    for i in 0..n {
        if !front_holds(words, EDGE_WORDS * i) {
            return false;
        }
        if !back_holds(words, EDGE_WORDS * i, links) {
            return false;
        }
    }
    true
}
