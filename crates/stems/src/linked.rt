// The plan of a stem that is placed by its link.
ghost use Rattle.std.specs.Prelude.{◌≡◌, true};
ghost use Rattle.fixed.specs.Width.{rule_holds};
ghost use Rattle.place.specs.Steps.{InReach};
ghost use Rattle.stems.specs.Plan.{linked_plan};

use super::kinds::{Mode, Plan, Second, Trail};
use axis::edge::Edge;
use place::place::linked_edge;

// The edge goes to its fitted width from the edge that it is linked to.
pub fn linked_plan(mode: Mode, standards: &[i32], edge: Edge, edge2: Edge, trail: Trail) -> Plan
    requires standards_value { rule_holds mode.rule standards.now ≡ true }
    requires in_reach { InReach edge × InReach edge2 }
    ensures { result ≡ linked_plan mode.rule standards.now edge edge2 trail }
{
    let rule = mode.rule;
    let placed = linked_edge(rule, standards, edge2, edge);
    let mark = placed.mark;
    Plan {
        first: placed.pos,
        mark,
        second: Second::Stays,
        bounded: false,
        anchors: false,
        trail,
    }
}
