// Segments join edges.
ghost use Rattle.std.specs.Prelude.{◌≡◌, true, false, ◌&&◌, ◌<◌};
ghost use Rattle.axis.specs.Limits.{most_segments};
ghost use Rattle.axis.specs.Ring.{walk, ends};
ghost use Rattle.build_join.specs.Joining.{fits_in, unjoined, shown, begun, state_at};
ghost use Rattle.build_join.specs.Walks.{next_in, stems_go, Latin, Joinable, StemsOf};

use super::ring::{append, ring_agrees};
use super::rules::{Rules, fits, limit_behind, new_edge, skips, stops_behind, with_last};
use axis::edge::{Axis, Edge, empty_axis};
use axis::kinds::{Dimension, Direction};
use axis::limits::{MOST_EDGES, MOST_SEGMENTS};
use axis::segment::{Segment, Segments};

// Whether a 129th edge was called for, the edges, and the next of each segment that has joined one.
#[derive(Clone, Copy)]
pub struct Joined {
    pub full: bool,
    pub axis: Axis,
    pub next: [u16; MOST_SEGMENTS],
}

// No edge yet.
pub fn none_joined(dim: Dimension, major_dir: Direction) -> Joined
    ensures { result ≡ unjoined dim major_dir }
{
    let axis = empty_axis(dim, major_dir);
    let next = [0u16; MOST_SEGMENTS];
    Joined {
        full: false,
        axis,
        next,
    }
}

// Whether segment i may join an edge: it fits, and in CJK all linked segments of the edge agree with its link.
fn may_join(
    next: &[u16; MOST_SEGMENTS],
    stems: &[i32; MOST_SEGMENTS],
    i: usize,
    segment: Segment,
    edge: Edge,
    limit: u64,
    near: u64,
    second: bool,
) -> bool
    requires { (i < most_segments) × (edge.first < most_segments) × (ends (next_in next.now) most_segments edge.last most_segments edge.first ≡ true) }
    ensures { result ≡ (fits_in second limit segment edge && stems_go stems.now near i (walk (next_in next.now) edge.last most_segments edge.first)) }
{
    if !fits(segment, edge, limit, second) {
        return false;
    }
    ring_agrees(next, stems, edge.first, edge.last, stems[i], near)
}

// One loop: a segment joins the edge that it goes with, or makes one; in Latin's second loop segments without direction join, and make none.
pub fn join_segments(
    segments: Segments,
    stems: &[i32; MOST_SEGMENTS],
    rules: Rules,
    second: bool,
    joined: Joined,
) -> Joined
    requires joinable { Joinable segments rules × StemsOf segments rules.cjk stems.now × Latin rules second }
    requires joined_value { (joined ≡ shown segments rules (begun segments rules second)) × (joined.full ≡ false) }
    ensures { result ≡ shown segments rules (state_at segments rules second segments.len) }
{
    let count = segments.len;
    let mut axis = joined.axis;
    let mut next = joined.next;
    for i in 0..count {
        let segment = segments.segments[i];
        if skips(segment, rules, second) {
            continue;
        }
        let edges = axis.len;
        let mut best = edges;
        let mut limit = rules.near;
        for k in 0..edges {
            if limit == 0 {
                break;
            }
            let edge = axis.edges[k];
            if !may_join(&next, stems, i, segment, edge, limit, rules.near, second) {
                continue;
            }
            best = k;
            limit = limit_behind(segment, edge, rules.cjk);
        }
        if best < edges {
            let edge = axis.edges[best];
            append(&mut next, edge.first, edge.last, i as u16);
            axis.edges[best] = with_last(edge, i as u16);
            continue;
        }
        if second {
            continue;
        }
        if edges == MOST_EDGES {
            return Joined {
                full: true,
                axis,
                next,
            };
        }
        let edge = new_edge(segment, rules.scale, i as u16);
        let mut ix = edges;
        // a while: it counts down while it moves edges up
        while 0 < ix {
            let at = ix - 1;
            let prev = axis.edges[at];
            if stops_behind(prev, edge, rules) {
                break;
            }
            axis.edges[ix] = prev;
            ix = at;
        }
        axis.edges[ix] = edge;
        axis.len = edges + 1;
        next[i] = i as u16;
    }
    Joined {
        full: false,
        axis,
        next,
    }
}
