// What the stores of a visit put into the table.
ghost use Rattle.std.specs.Prelude.{◌≡◌, ◌-◌, ◌<◌};
ghost use Rattle.signed.specs.Range.{Between};
ghost use Rattle.axis.specs.Edge.{fixed_at};
ghost use Rattle.axis.specs.Limits.{most_edges};
ghost use Rattle.place.specs.Steps.{InReach};
ghost use Rattle.stems.specs.Plan.{second_edge, is_over, is_bounded, held_edge, anchor_after};
ghost use Rattle.stems.specs.Steps.{most_place};

use super::kinds::{Plan, Second};
use axis::edge::{Edge, fix_at, with_pos};
use axis::kinds::Mark;
use place::adjust::{LinkDir, has_passed, is_far};

// The first edge of a stem.
pub fn first_edge(edge: Edge, plan: Plan) -> Edge
    requires { Between most_place most_place plan.first }
    ensures { result ≡ fixed_at edge plan.first plan.mark }
{
    let mark = plan.mark;
    fix_at(edge, plan.first, mark)
}

// The second edge of a stem.
pub fn second_edge(edge: Edge, plan: Plan) -> Edge
    ensures { result ≡ second_edge edge plan.second }
{
    let second = plan.second;
    match second {
        Second::Stays => edge,
        Second::Placed(pos) => with_pos(edge, pos, Mark::Linked),
        Second::Fixed(pos) => fix_at(edge, pos, Mark::Stem),
    }
}

// The place before another one, or the first place.
pub fn before(i: usize) -> usize
    ensures { result ≡ i - 1 }
{
    if i == 0 {
        return 0;
    }
    i - 1
}

// Whether an edge has passed the previous one, and its link is far from that.
pub fn is_over(edge: Edge, prev: Edge, link: Edge) -> bool
    requires { InReach edge × InReach prev × InReach link }
    ensures { result ≡ is_over edge prev link }
{
    if has_passed(LinkDir::Prev, edge.pos, prev.pos) {
        return is_far(link.pos, prev.pos);
    }
    false
}

// Whether the previous edge bounds edge i: the first edge has none.
pub fn is_bounded(plan: Plan, i: usize) -> bool
    ensures { result ≡ is_bounded plan i }
{
    if plan.bounded {
        return 0 < i;
    }
    false
}

// Edge i, put back to the previous edge where that bounds it.
pub fn hold(plan: Plan, i: usize, edge: Edge, prev: Edge, link: Edge) -> Edge
    requires { InReach edge × InReach prev × InReach link }
    ensures { result ≡ held_edge plan i edge prev link }
{
    if is_bounded(plan, i) {
        if is_over(edge, prev, link) {
            return with_pos(edge, prev.pos, Mark::Bound);
        }
    }
    edge
}

// The anchor, which the first edge of a stem may become.
pub fn anchor_after(plan: Plan, anchor: Option<u16>, i: usize) -> Option<u16>
    requires { i < most_edges }
    ensures { result ≡ anchor_after plan anchor i }
{
    if plan.anchors {
        return Some(i as u16);
    }
    anchor
}
