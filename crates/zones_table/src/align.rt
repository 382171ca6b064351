// The call.
ghost use Rattle.std.specs.Prelude.{◌≡◌, true};
ghost use Rattle.refusals.specs.Outcome.{answer_of};
ghost use Rattle.refusals.specs.Refusal.{refusal};
ghost use Rattle.axis.specs.Limits.{most_pos};
ghost use Rattle.axis.specs.Accepted.{AxisWithin};
ghost use Rattle.fixed.specs.Width.{rule_holds};
ghost use Rattle.zones.specs.Call.{blues_where, blues_tests, AlignsEdgesToBlues};
ghost use Rattle.zones.specs.Answer.{passed_of, outcome_of};

use super::pass::align_to_zones;
use axis::accept::{edges_indices, edges_numbers, few_edges};
use axis::edge::Axis;
use axis::kinds::Group;
use fixed::width::{WidthRule, rule_holds};
use refusals::order::{Refusal, require};
use zones::anchored::Anchored;
use zones::group::has_blues;

// The refusal of the call, if there is one.
fn blues_refusal(axis: Axis, rule: WidthRule, standards: &[i32]) -> Result<(), Refusal>
    ensures { answer_of result ≡ refusal (blues_tests axis rule standards.now) }
{
    require(few_edges(axis.len), Refusal::TooLong)?;
    require(rule_holds(rule, standards), Refusal::BadParameter)?;
    require(edges_indices(axis), Refusal::BadIndex)?;
    require(edges_numbers(axis), Refusal::OutOfRange)
}

// Aligns edges to their blue zones where the group has some on the axis, and hands back the anchor.
pub fn align_where_zoned(axis: Axis, group: Group, rule: WidthRule, standards: &[i32]) -> Anchored
    requires standards_value { rule_holds rule standards.now ≡ true }
    requires axis_within { AxisWithin most_pos axis }
    ensures { passed_of result ≡ blues_where axis group rule standards.now }
{
    let dim = axis.dim;
    if has_blues(group, dim) {
        return align_to_zones(axis, rule, standards);
    }
    Anchored { anchor: None, axis }
}

// Aligns edges to their blue zones, and hands back the anchor.
pub fn align_edges_to_blues(
    axis: Axis,
    group: Group,
    rule: WidthRule,
    standards: &[i32],
) -> Result<Anchored, Refusal>
    ensures { AlignsEdgesToBlues axis group rule standards.now (outcome_of axis result) }
{
    blues_refusal(axis, rule, standards)?;
    Ok(align_where_zoned(axis, group, rule, standards))
}
