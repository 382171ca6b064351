// An edge that passed its neighbour, put back to it.
ghost use Rattle.std.specs.Prelude.{◌≡◌, ◌<◌, ◌≤◌};
ghost use Rattle.signed.specs.Range.{Between};
ghost use Rattle.axis.specs.Limits.{most_edges, most_pos};
ghost use Rattle.axis.specs.Accepted.{AxisWithin};
ghost use Rattle.place.specs.Placing.{has_passed, is_far, neighbour, adjusted};
ghost use Rattle.place.specs.Steps.{most_reach};

use super::bounds::{lower_bound, upper_bound};
use axis::edge::{Axis, with_pos};
use axis::kinds::Mark;
use fixed::point::magnitude;

// Which neighbour an edge is held to.
#[derive(Clone, Copy)]
pub enum LinkDir {
    Prev,
    Next,
}

// Whether an edge at pos1 has passed its neighbour at pos2.
pub fn has_passed(dir: LinkDir, pos1: i32, pos2: i32) -> bool
    ensures { result ≡ has_passed dir pos1 pos2 }
{
    match dir {
        LinkDir::Prev => pos1 < pos2,
        LinkDir::Next => pos2 < pos1,
    }
}

// Whether two positions are more than 16 apart.
pub fn is_far(pos1: i32, pos2: i32) -> bool
    requires { Between most_reach most_reach pos1 × Between most_reach most_reach pos2 }
    ensures { result ≡ is_far pos1 pos2 }
{
    let apart = pos1 - pos2;
    16 < magnitude(apart as i64)
}

// The neighbour that an edge is held to, where there is one; a next one that is not done is none.
fn neighbour_of(axis: Axis, edge: usize, dir: LinkDir) -> Option<u16>
    requires { (edge < axis.len) × (axis.len ≤ most_edges) }
    ensures { result ≡ neighbour dir axis edge }
{
    match dir {
        LinkDir::Prev => lower_bound(edge),
        LinkDir::Next => upper_bound(axis, edge),
    }
}

// Puts the edge to its neighbour's position, where it has passed it and its link is far from the previous edge.
pub fn adjust(axis: Axis, edge: usize, dir: LinkDir) -> Axis
    requires { AxisWithin most_pos axis × (edge < axis.len) }
    ensures { result ≡ adjusted axis edge dir }
{
    if edge == 0 {
        return axis;
    }
    let neighbour = neighbour_of(axis, edge, dir);
    let Some(k) = neighbour else {
        return axis;
    };
    let edge1 = axis.edges[edge];
    let edge2 = axis.edges[k as usize];
    if !has_passed(dir, edge1.pos, edge2.pos) {
        return axis;
    }
    let link = edge1.link;
    let Some(l) = link else {
        return axis;
    };
    let linked = axis.edges[l as usize];
    let prev_edge = axis.edges[edge - 1];
    if !is_far(linked.pos, prev_edge.pos) {
        return axis;
    }
    let mut held = axis;
    held.edges[edge] = with_pos(edge1, edge2.pos, Mark::Bound);
    held
}
