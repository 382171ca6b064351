// The plan of a visit.
ghost use Rattle.std.specs.Prelude.{◌≡◌, true, ◌&&◌};
ghost use Rattle.signed.specs.Range.{Between};
ghost use Rattle.axis.specs.Limits.{most_passed};
ghost use Rattle.axis.specs.Edge.{has_blue};
ghost use Rattle.fixed.specs.Width.{rule_holds};
ghost use Rattle.place.specs.Steps.{InReach};
ghost use Rattle.stems.specs.Plan.{group_plan, plan_of};
ghost use Rattle.stems.specs.Steps.{BareWithout};

use super::cjk::cjk_plan;
use super::kinds::{Mode, Plan, Trail};
use super::latin::latin_plan;
use super::linked::linked_plan;
use axis::edge::{Edge, has_blue};
use axis::kinds::Group;

// A stem by its group.
fn group_plan(
    mode: Mode,
    standards: &[i32],
    edge: Edge,
    edge2: Edge,
    base: Edge,
    anchor: Option<u16>,
    is_before: bool,
    trail: Trail,
) -> Plan
    requires standards_value { rule_holds mode.rule standards.now ≡ true }
    requires in_reach { InReach edge × InReach edge2 × InReach base × Between most_passed most_passed trail.delta }
    ensures { result ≡ group_plan mode.group mode standards.now edge edge2 base anchor is_before trail }
{
    let group = mode.group;
    match group {
        Group::Default => latin_plan(mode, standards, edge, edge2, base, anchor, trail),
        Group::Cjk => cjk_plan(mode, standards, edge, edge2, anchor, is_before, trail),
    }
}

// Whether an edge is placed by its link alone: the fallback is not left out, and the link has a zone.
fn falls_back(fallback: bool, edge2: Edge) -> bool
    ensures { result ≡ (fallback && has_blue edge2.blue) }
{
    if fallback {
        return has_blue(edge2);
    }
    false
}

// The plan for an edge and its link, with the fallback for a link that has a blue zone, or without it where no link has one.
pub fn plan_for(
    mode: Mode,
    standards: &[i32],
    edge: Edge,
    edge2: Edge,
    base: Edge,
    anchor: Option<u16>,
    is_before: bool,
    trail: Trail,
    fallback: bool,
) -> Plan
    requires standards_value { rule_holds mode.rule standards.now ≡ true }
    requires in_reach { InReach edge × InReach edge2 × InReach base × Between most_passed most_passed trail.delta }
    requires bare_without { BareWithout fallback edge2 }
    ensures { result ≡ plan_of mode standards.now edge edge2 base anchor is_before trail }
{
    if falls_back(fallback, edge2) {
        return linked_plan(mode, standards, edge, edge2, trail);
    }
    group_plan(mode, standards, edge, edge2, base, anchor, is_before, trail)
}
