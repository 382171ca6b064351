// The plan of a Latin stem.
ghost use Rattle.std.specs.Prelude.{◌≡◌, true};
ghost use Rattle.signed.specs.Range.{Between};
ghost use Rattle.fixed.specs.Width.{rule_holds};
ghost use Rattle.place.specs.Steps.{InReach};
ghost use Rattle.stems_latin.specs.Latin.{most_start, most_length, most_width};
ghost use Rattle.stems.specs.Visit.{original_len, width_of, start_beside};
ghost use Rattle.stems.specs.Plan.{behind_plan, centred_plan, anchored_plan, free_plan, latin_plan};

use super::kinds::{Mode, Plan, Second, Trail};
use axis::edge::Edge;
use axis::kinds::Mark;
use fixed::width::{WidthRule, stem_width};
use stems_latin::anchored::{anchored_first, anchored_second};
use stems_latin::first::free_first;

// The length of a stem by the original positions of its edges.
fn original_len(edge: Edge, edge2: Edge) -> i32
    requires { InReach edge × InReach edge2 }
    ensures { result ≡ original_len edge edge2 }
{
    edge2.opos - edge.opos
}

// Its fitted width.
fn width_of(rule: WidthRule, standards: &[i32], edge: Edge, edge2: Edge) -> i32
    requires standards_value { rule_holds rule standards.now ≡ true }
    requires in_reach { InReach edge × InReach edge2 }
    ensures { result ≡ width_of rule standards.now edge edge2 }
{
    stem_width(rule, standards, edge2.opos - edge.opos)
}

// Where a stem begins by the anchor: as far from it as it was.
fn start_beside(anchor: Edge, edge: Edge) -> i32
    requires { InReach anchor × InReach edge }
    ensures { result ≡ start_beside anchor edge }
{
    anchor.pos + (edge.opos - anchor.opos)
}

// The first edge goes to the width before the second, which is placed for good already.
fn behind_plan(edge2: Edge, width: i32, trail: Trail) -> Plan
    requires { InReach edge2 × Between most_width most_width width }
    ensures { result ≡ behind_plan edge2 width trail }
{
    Plan {
        first: edge2.pos - width,
        mark: Mark::Adjusted,
        second: Second::Stays,
        bounded: true,
        anchors: false,
        trail,
    }
}

// Both edges are placed for good by the start, the length and the fitted width of the stem.
fn centred_plan(start: i32, org_len: i32, width: i32, trail: Trail) -> Plan
    requires { Between most_start most_start start × Between most_length most_length org_len × Between most_width most_width width }
    ensures { result ≡ centred_plan start org_len width trail }
{
    let first = anchored_first(start, org_len, width);
    let second = anchored_second(start, org_len, width, first);
    Plan {
        first,
        mark: Mark::Stem,
        second: Second::Fixed(second),
        bounded: true,
        anchors: false,
        trail,
    }
}

// A stem beside the anchor.
fn anchored_plan(
    mode: Mode,
    standards: &[i32],
    edge: Edge,
    edge2: Edge,
    anchor: Edge,
    trail: Trail,
) -> Plan
    requires standards_value { rule_holds mode.rule standards.now ≡ true }
    requires in_reach { InReach edge × InReach edge2 × InReach anchor }
    ensures { result ≡ anchored_plan mode.rule standards.now edge edge2 anchor trail }
{
    let rule = mode.rule;
    let width = width_of(rule, standards, edge, edge2);
    if edge2.flags.done {
        return behind_plan(edge2, width, trail);
    }
    let org_len = original_len(edge, edge2);
    let start = start_beside(anchor, edge);
    centred_plan(start, org_len, width, trail)
}

// The first stem where there is no anchor: it becomes the anchor, and its second edge is placed by its width.
fn free_plan(mode: Mode, standards: &[i32], edge: Edge, edge2: Edge, trail: Trail) -> Plan
    requires standards_value { rule_holds mode.rule standards.now ≡ true }
    requires in_reach { InReach edge × InReach edge2 }
    ensures { result ≡ free_plan mode.rule standards.now edge edge2 trail }
{
    let rule = mode.rule;
    let width = width_of(rule, standards, edge, edge2);
    let org_len = original_len(edge, edge2);
    let first = free_first(edge.opos, org_len, width);
    Plan {
        first,
        mark: Mark::Anchor,
        second: Second::Placed(first + width),
        bounded: false,
        anchors: true,
        trail,
    }
}

// A Latin stem, by whether there is an anchor.
pub fn latin_plan(
    mode: Mode,
    standards: &[i32],
    edge: Edge,
    edge2: Edge,
    base: Edge,
    anchor: Option<u16>,
    trail: Trail,
) -> Plan
    requires standards_value { rule_holds mode.rule standards.now ≡ true }
    requires in_reach { InReach edge × InReach edge2 × InReach base }
    ensures { result ≡ latin_plan mode.rule standards.now edge edge2 base anchor trail }
{
    match anchor {
        None => free_plan(mode, standards, edge, edge2, trail),
        Some(k) => anchored_plan(mode, standards, edge, edge2, base, trail),
    }
}
