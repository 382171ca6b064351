// Edges in the order of their positions, as a list of those, one of their first segments and one of their last.
ghost use Rattle.std.specs.Prelude.{◌≡◌, ◌<◌, ◌≤◌, pos};
ghost use Rattle.axis.specs.Limits.{most_edges};
ghost use Rattle.build_join_words.specs.Lists.{stops_at, stop_at, Inserted};

use super::read::edge_at;
use axis::edge::Edge;
use axis::limits::MOST_EDGES;
use build_join::rules::{Rules, stops_behind};

// The place in which an edge that is added settles: walking back, behind the first that stops it.
pub fn stop_at(places: &[i16; MOST_EDGES], count: usize, edge: Edge, rules: Rules) -> usize
    requires { count ≤ most_edges }
    ensures { (result ≡ stop_at (stops_at rules edge) (pos 0) places.now count) × (result ≤ count) }
{
    for at in (0..count).rev() {
        if stops_behind(edge_at(places[at]), edge, rules) {
            return at + 1;
        }
    }
    0
}

// Puts the edge of segment i alone in a place of the first count of the lists, which have room for it: those from there on move up by one.
pub fn insert_at(
    places: &mut [i16; MOST_EDGES],
    first: &mut [u16; MOST_EDGES],
    last: &mut [u16; MOST_EDGES],
    at: usize,
    count: usize,
    place: i16,
    i: u16,
)
    requires { (at ≤ count) × (count < most_edges) }
    ensures { Inserted at count place i places.old first.old last.old places.new first.new last.new }
{
    for below in (at..count).rev() {
        places[below + 1] = places[below];
        first[below + 1] = first[below];
        last[below + 1] = last[below];
    }
    places[at] = place;
    first[at] = i;
    last[at] = i;
}
