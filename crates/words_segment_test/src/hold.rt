// Whether words are those of segments that a call accepts: one loop, and no segment made.
ghost use Rattle.std.specs.Prelude.{◌≡◌, true, ◌≤◌, ◌+◌, length};
ghost use Rattle.axis.specs.Limits.{most_segments};
ghost use Rattle.words.specs.Segment.{segment_size};
ghost use Rattle.words_segment_test.specs.Held.{links_where, FrontHeld, BackHeld, Held};

use axis::limits::{MOST_SCORE, MOST_SEGMENTS};
use words::segment::{
    DELTA_PLACE, DIR_PLACE, EDGE_PLACE, FIRST_PLACE, HEIGHT_PLACE, LAST_PLACE, LEN_PLACE,
    LINK_PLACE, MAX_PLACE, MIN_PLACE, NEXT_PLACE, POS_PLACE, SCORE_PLACE, SEGMENT_WORDS,
    SERIF_PLACE,
};
use words_edge_test::hold::links_to;
use words_shape::element::{
    SEGMENT_DELTA, SEGMENT_DIR, SEGMENT_EDGE, SEGMENT_FIRST, SEGMENT_FLAGS, SEGMENT_HEIGHT,
    SEGMENT_LAST, SEGMENT_MAX, SEGMENT_MIN, SEGMENT_POS,
};
use words_shape::field::{LINK, Range, in_at};

// The place of a segment's flags.
const FLAGS_PLACE: usize = 0;

// The scores and lengths that every call accepts.
const SCORE: Range = Range {
    low: 0,
    high: MOST_SCORE,
};

// Whether the first nine words of a segment are accepted.
fn front_holds(words: &[i32], at: usize) -> bool
    requires { at + segment_size ≤ length words.now }
    ensures { result ≡ true → FrontHeld words.now at }
{
    if !in_at(words, at + FLAGS_PLACE, SEGMENT_FLAGS) {
        return false;
    }
    if !in_at(words, at + DIR_PLACE, SEGMENT_DIR) {
        return false;
    }
    if !in_at(words, at + POS_PLACE, SEGMENT_POS) {
        return false;
    }
    if !in_at(words, at + DELTA_PLACE, SEGMENT_DELTA) {
        return false;
    }
    if !in_at(words, at + MIN_PLACE, SEGMENT_MIN) {
        return false;
    }
    if !in_at(words, at + MAX_PLACE, SEGMENT_MAX) {
        return false;
    }
    if !in_at(words, at + HEIGHT_PLACE, SEGMENT_HEIGHT) {
        return false;
    }
    if !in_at(words, at + SCORE_PLACE, SCORE) {
        return false;
    }
    in_at(words, at + LEN_PLACE, SCORE)
}

// Whether the other six are, where link and serif have these values, and next has those.
fn back_holds(words: &[i32], at: usize, links: Range, nexts: Range) -> bool
    requires { at + segment_size ≤ length words.now }
    ensures { result ≡ true → BackHeld words.now at links nexts }
{
    if !in_at(words, at + LINK_PLACE, links) {
        return false;
    }
    if !in_at(words, at + SERIF_PLACE, links) {
        return false;
    }
    if !in_at(words, at + FIRST_PLACE, SEGMENT_FIRST) {
        return false;
    }
    if !in_at(words, at + LAST_PLACE, SEGMENT_LAST) {
        return false;
    }
    if !in_at(words, at + EDGE_PLACE, SEGMENT_EDGE) {
        return false;
    }
    in_at(words, at + NEXT_PLACE, nexts)
}

// The values of a link that is tested, to one of so many or to none, and of one that is not.
fn links_where(n: usize, tested: bool) -> Range
    requires { n ≤ most_segments }
    ensures { result ≡ links_where n tested }
{
    if tested {
        return links_to(n);
    }
    LINK
}

// Whether the words are those of segments, and a call accepts them, which tests the next of each or not.
pub fn segments_hold(words: &[i32], nexts: bool) -> bool
    ensures { result ≡ true → Held words.now nexts }
{
    let n = words.len() / SEGMENT_WORDS;
    if MOST_SEGMENTS < n {
        return false;
    }
    if SEGMENT_WORDS * n < words.len() {
        return false;
    }
    let links = links_where(n, true);
    let ways = links_where(n, nexts);
    for i in 0..n {
        if !front_holds(words, SEGMENT_WORDS * i) {
            return false;
        }
        if !back_holds(words, SEGMENT_WORDS * i, links, ways) {
            return false;
        }
    }
    true
}
