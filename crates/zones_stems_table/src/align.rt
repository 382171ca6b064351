// The call.
ghost use Rattle.std.specs.Prelude.{◌≡◌};
ghost use Rattle.refusals.specs.Outcome.{answer_of};
ghost use Rattle.refusals.specs.Refusal.{refusal};
ghost use Rattle.zones_stems.specs.Joined.{zones_hold, joined_tests, AlignsBluesAndStems};
ghost use Rattle.stems.specs.Answer.{outcome_of};

use axis::accept::{EdgeTest, edges_indices, edges_numbers, every_edge, few_edges};
use axis::edge::Axis;
use axis::kinds::Group;
use fixed::width::{WidthRule, rule_holds};
use refusals::order::{Refusal, require};
use stems::kinds::Mode;
use stems::outcome::Stems;
use stems_table::pass::align_stems;
use zones::group::has_blues;
use zones_table::align::align_where_zoned;

// Whether the group has zones on the axis, or no edge has one.
fn zones_hold(axis: Axis, group: Group) -> bool
    ensures { result ≡ zones_hold group axis }
{
    let dim = axis.dim;
    if has_blues(group, dim) {
        return true;
    }
    every_edge(axis, EdgeTest::Bare)
}

// The refusal of the call, if there is one.
fn joined_refusal(
    axis: Axis,
    group: Group,
    top_to_bottom: bool,
    rule: WidthRule,
    standards: &[i32],
) -> Result<(), Refusal>
    ensures { answer_of result ≡ refusal (joined_tests axis group top_to_bottom rule standards.now) }
{
    require(few_edges(axis.len), Refusal::TooLong)?;
    require(!top_to_bottom, Refusal::Retired)?;
    require(rule_holds(rule, standards), Refusal::BadParameter)?;
    require(zones_hold(axis, group), Refusal::BadParameter)?;
    require(edges_indices(axis), Refusal::BadIndex)?;
    require(edges_numbers(axis), Refusal::OutOfRange)
}

// Aligns edges to their blue zones, then all stems beside the anchor that these left, and hands back how many edges the stems passed over, and the anchor behind them.
pub fn align_blues_and_stems(
    axis: Axis,
    group: Group,
    stem_adjust: bool,
    top_to_bottom: bool,
    rule: WidthRule,
    standards: &[i32],
) -> Result<Stems, Refusal>
    ensures { AlignsBluesAndStems axis group stem_adjust top_to_bottom rule standards.now (outcome_of axis result) }
{
    joined_refusal(axis, group, top_to_bottom, rule, standards)?;
    let zoned = align_where_zoned(axis, group, rule, standards);
    let dim = axis.dim;
    let mode = Mode {
        dim,
        group,
        stem_adjust,
        rule,
    };
    let anchor = zoned.anchor;
    Ok(align_stems(zoned.axis, mode, standards, anchor, false))
}
