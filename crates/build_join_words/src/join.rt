// Segments join edges.
ghost use Rattle.std.specs.Prelude.{◌≡◌, false, ◌<◌, ◌+◌, replicate};
ghost use Rattle.axis.specs.Limits.{most_edges, most_segments};
ghost use Rattle.axis.specs.Accepted.{SegmentsWithin};
ghost use Rattle.build_join.specs.Joining.{begun, state_at, last_state};
ghost use Rattle.build_join.specs.Walks.{Joinable};
ghost use Rattle.words.specs.Segment.{segments_in, flat_segments};
ghost use Rattle.build_join_words.specs.Lists.{Listed, Placed, Ready, Before, Made};

use super::place::place_of;
use super::read::{is_left_out, read_edge, read_segment};
use super::settle::{insert_at, stop_at};
use axis::limits::{MOST_EDGES, MOST_SEGMENTS};
use build_join::ring::append;
use build_join::rules::{Rules, skips};
use words::segment::SEGMENT_WORDS;

// Whether a 129th edge was called for, and how many edges there are.
#[derive(Clone, Copy)]
pub struct Joining {
    pub full: bool,
    pub count: usize,
}

// Segment i makes an edge, in the place where that settles, and is its own next.
fn make_edge(
    words: &[i32],
    places: &mut [i16; MOST_EDGES],
    first: &mut [u16; MOST_EDGES],
    last: &mut [u16; MOST_EDGES],
    next: &mut [u16; MOST_SEGMENTS],
    count: usize,
    i: u16,
    rules: Rules,
)
    requires { (count < most_edges) × (i < most_segments) × (i < segments_in words.now) }
    ensures { Made words.now rules i count places.old first.old last.old next.old
        places.new first.new last.new next.new }
{
    let edge = read_edge(words, i, i);
    let at = stop_at(places, count, edge, rules);
    insert_at(places, first, last, at, count, edge.fpos, i);
    next[i as usize] = i;
}

// The visit of segment i: it joins the edge that it goes with, or makes one; in Latin's second loop segments without direction join, and make none.
fn visit_in(
    words: &[i32],
    places: &mut [i16; MOST_EDGES],
    first: &mut [u16; MOST_EDGES],
    last: &mut [u16; MOST_EDGES],
    next: &mut [u16; MOST_SEGMENTS],
    count: usize,
    i: u16,
    rules: Rules,
    second: bool,
) -> Joining
    requires { Before words.now rules second i places.old first.old last.old next.old count }
    ensures { Placed (flat_segments words.now) rules (state_at (flat_segments words.now) rules second (i + 1))
        places.new first.new last.new next.new result.full result.count }
{
    let segment = read_segment(words, i);
    if skips(segment, rules, second) {
        return Joining { full: false, count };
    }
    let best = place_of(
        words, places, first, last, next, count, i, segment, rules, second,
    );
    if best < count {
        append(next, first[best], last[best], i);
        last[best] = i;
        return Joining { full: false, count };
    }
    if second {
        return Joining { full: false, count };
    }
    if count == MOST_EDGES {
        return Joining { full: true, count };
    }
    make_edge(words, places, first, last, next, count, i, rules);
    let more = count + 1;
    Joining {
        full: false,
        count: more,
    }
}

// One loop over all segments.
fn join_loop(
    words: &[i32],
    places: &mut [i16; MOST_EDGES],
    first: &mut [u16; MOST_EDGES],
    last: &mut [u16; MOST_EDGES],
    next: &mut [u16; MOST_SEGMENTS],
    given: usize,
    rules: Rules,
    second: bool,
) -> Joining
    requires { Ready words.now rules second × Placed (flat_segments words.now) rules (begun (flat_segments words.now) rules second) places.old first.old last.old next.old false given }
    ensures { Placed (flat_segments words.now) rules (state_at (flat_segments words.now) rules second (segments_in words.now))
        places.new first.new last.new next.new result.full result.count }
{
    let n = words.len() / SEGMENT_WORDS;
    let mut count = given;
    for i in 0..n {
        if is_left_out(words, i as u16, second) {
            continue;
        }
        let joined = visit_in(
            words, places, first, last, next, count, i as u16, rules, second,
        );
        if joined.full {
            return joined;
        }
        count = joined.count;
    }
    Joining { full: false, count }
}

// Both loops, or CJK's one: the edges of the segments as lists, which hold nothing but zeros before.
pub fn join_in(
    words: &[i32],
    first: &mut [u16; MOST_EDGES],
    last: &mut [u16; MOST_EDGES],
    next: &mut [u16; MOST_SEGMENTS],
    rules: Rules,
) -> Joining
    requires segments_within { SegmentsWithin (flat_segments words.now) × Joinable (flat_segments words.now) rules }
    requires first_value { (first.old ≡ replicate most_edges 0) × (last.old ≡ replicate most_edges 0) × (next.old ≡ replicate most_segments 0) }
    ensures { Listed (last_state (flat_segments words.now) rules) first.new last.new next.new result.full result.count }
{
    let mut places = [0i16; MOST_EDGES];
    let joined = join_loop(words, &mut places, first, last, next, 0, rules, false);
    if rules.cjk {
        return joined;
    }
    if joined.full {
        return joined;
    }
    join_loop(
        words,
        &mut places,
        first,
        last,
        next,
        joined.count,
        rules,
        true,
    )
}
