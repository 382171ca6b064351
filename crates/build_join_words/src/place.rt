// Where a segment goes: the edge that it joins.
ghost use Rattle.std.specs.Prelude.{◌≡◌, true, ◌&&◌, ◌||◌, ◌<◌, ◌≤◌};
ghost use Rattle.std.specs.Int.Signed.{le_z};
ghost use Rattle.axis.specs.Limits.{most_segments};
ghost use Rattle.axis.specs.Ring.{walk, ends};
ghost use Rattle.build_join.specs.Joining.{fits_in};
ghost use Rattle.build_join.specs.Walks.{next_in, no_stem, stems_agree};
ghost use Rattle.build_join_words.specs.Reading.{segment_in, stems_in};
ghost use Rattle.build_join_words.specs.Lists.{Before, place_in};

use super::read::{edge_at, own_stem, read_edge, ring_agrees};
use axis::edge::Edge;
use axis::limits::{MOST_EDGES, MOST_SEGMENTS};
use axis::segment::Segment;
use build_join::rules::{Rules, distance_to, fits, limit_behind};

// Whether a segment with this stem may join an edge: it fits, and in CJK all linked segments of the edge agree with its link.
fn may_join_in(
    words: &[i32],
    next: &[u16; MOST_SEGMENTS],
    segment: Segment,
    stem: i32,
    edge: Edge,
    limit: u64,
    near: u64,
    second: bool,
) -> bool
    requires { (edge.first < most_segments) × (ends (next_in next.now) most_segments edge.last most_segments edge.first ≡ true) }
    ensures { result ≡ (fits_in second limit segment edge
        && (le_z no_stem stem || stems_agree (stems_in words.now) near stem (walk (next_in next.now) edge.last most_segments edge.first))) }
{
    if !fits(segment, edge, limit, second) {
        return false;
    }
    ring_agrees(words, next, edge.first, edge.last, stem, near)
}

// The edge that segment i joins, or the number of edges. Of an edge that is too far nothing but the position is read.
pub fn place_of(
    words: &[i32],
    places: &[i16; MOST_EDGES],
    first: &[u16; MOST_EDGES],
    last: &[u16; MOST_EDGES],
    next: &[u16; MOST_SEGMENTS],
    count: usize,
    i: u16,
    segment: Segment,
    rules: Rules,
    second: bool,
) -> usize
    requires { Before words.now rules second i places.now first.now last.now next.now count × (segment ≡ segment_in words.now i) }
    ensures { (result ≡ place_in words.now rules second i) × (result ≤ count) }
{
    let stem = own_stem(words, i, rules.cjk);
    let mut best = count;
    let mut limit = rules.near;
    for k in 0..count {
        if limit == 0 {
            break;
        }
        if limit <= distance_to(segment, edge_at(places[k])) {
            continue;
        }
        let edge = read_edge(words, first[k], last[k]);
        if !may_join_in(words, next, segment, stem, edge, limit, rules.near, second) {
            continue;
        }
        best = k;
        limit = limit_behind(segment, edge, rules.cjk);
    }
    best
}
