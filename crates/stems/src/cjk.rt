// The plan of a CJK stem.
ghost use Rattle.std.specs.Prelude.{◌≡◌, true};
ghost use Rattle.signed.specs.Range.{Between};
ghost use Rattle.axis.specs.Limits.{most_passed};
ghost use Rattle.fixed.specs.Width.{rule_holds};
ghost use Rattle.place.specs.Steps.{InReach};
ghost use Rattle.stems_cjk.specs.Cjk.{most_width, most_cjk_start};
ghost use Rattle.stems.specs.Visit.{delta_beside, delta_after};
ghost use Rattle.stems.specs.Plan.{fixed_plan, stem_plan, cjk_plan};

use super::kinds::{Mode, Plan, Second, Trail};
use super::linked::linked_plan;
use axis::edge::Edge;
use axis::kinds::{Dimension, Mark};
use stems_cjk::stem::{Stem, stem_of};

// Both edges are placed for good; the first is the anchor, the second the last stem's position.
fn fixed_plan(first: i32, second: i32, delta: i32) -> Plan
    ensures { result ≡ fixed_plan first second delta }
{
    let trail = Trail {
        last: Some(second),
        delta,
    };
    Plan {
        first,
        mark: Mark::Stem,
        second: Second::Fixed(second),
        bounded: false,
        anchors: true,
        trail,
    }
}

// The delta of a stem is passed on where there was no anchor.
fn delta_beside(anchor: Option<u16>, passed: i32, delta: i32) -> i32
    ensures { result ≡ delta_beside anchor passed delta }
{
    match anchor {
        None => delta,
        Some(k) => passed,
    }
}

// And on horizontal axes alone.
fn delta_after(dim: Dimension, anchor: Option<u16>, passed: i32, delta: i32) -> i32
    ensures { result ≡ delta_after dim anchor passed delta }
{
    match dim {
        Dimension::Horizontal => delta_beside(anchor, passed, delta),
        Dimension::Vertical => passed,
    }
}

// The two edges of a stem: the one of the smaller original position is the lower one.
fn stem_plan(edge: Edge, edge2: Edge, stem: Stem, delta: i32) -> Plan
    requires in_reach { InReach edge × InReach edge2 }
    requires between { Between most_cjk_start most_cjk_start stem.pos × Between most_width most_width stem.width }
    ensures { result ≡ stem_plan edge edge2 stem delta }
{
    let upper = stem.pos + stem.width;
    if edge.opos < edge2.opos {
        return fixed_plan(stem.pos, upper, delta);
    }
    fixed_plan(upper, stem.pos, delta)
}

// A stem whose second edge is before the first is linked to it, else it is a normal stem.
pub fn cjk_plan(
    mode: Mode,
    standards: &[i32],
    edge: Edge,
    edge2: Edge,
    anchor: Option<u16>,
    is_before: bool,
    trail: Trail,
) -> Plan
    requires standards_value { rule_holds mode.rule standards.now ≡ true }
    requires in_reach { InReach edge × InReach edge2 × Between most_passed most_passed trail.delta }
    ensures { result ≡ cjk_plan mode standards.now edge edge2 anchor is_before trail }
{
    if is_before {
        let last = Trail {
            last: Some(edge.pos),
            delta: trail.delta,
        };
        return linked_plan(mode, standards, edge, edge2, last);
    }
    let dim = mode.dim;
    let rule = mode.rule;
    let stem = stem_of(
        dim,
        mode.stem_adjust,
        rule,
        standards,
        edge,
        edge2,
        trail.delta,
    );
    let delta = delta_after(dim, anchor, trail.delta, stem.delta);
    stem_plan(edge, edge2, stem, delta)
}
