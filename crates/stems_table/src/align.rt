// The call.
ghost use Rattle.std.specs.Prelude.{◌≡◌};
ghost use Rattle.refusals.specs.Outcome.{answer_of};
ghost use Rattle.refusals.specs.Refusal.{refusal};
ghost use Rattle.stems.specs.Stems.{stems_tests, AlignsStemEdges};
ghost use Rattle.stems.specs.Answer.{outcome_of};

use super::pass::align_stems;
use axis::accept::{edges_indices, edges_numbers, few_edges, link_holds};
use axis::edge::Axis;
use axis::kinds::Group;
use fixed::width::{WidthRule, rule_holds};
use refusals::order::{Refusal, require};
use stems::kinds::Mode;
use stems::outcome::Stems;

// The refusal of the call, if there is one.
fn stems_refusal(
    axis: Axis,
    top_to_bottom: bool,
    anchor: Option<u16>,
    rule: WidthRule,
    standards: &[i32],
) -> Result<(), Refusal>
    ensures { answer_of result ≡ refusal (stems_tests axis top_to_bottom anchor rule standards.now) }
{
    require(few_edges(axis.len), Refusal::TooLong)?;
    require(!top_to_bottom, Refusal::Retired)?;
    require(rule_holds(rule, standards), Refusal::BadParameter)?;
    require(edges_indices(axis), Refusal::BadIndex)?;
    require(link_holds(anchor, axis.len), Refusal::BadIndex)?;
    require(edges_numbers(axis), Refusal::OutOfRange)
}

// Aligns all stem edges, from bottom to top, and hands back how many edges it passed over, and the anchor. Top to bottom can be asked for only to be refused: it is
// retired.
pub fn align_stem_edges(
    axis: Axis,
    group: Group,
    stem_adjust: bool,
    top_to_bottom: bool,
    anchor: Option<u16>,
    rule: WidthRule,
    standards: &[i32],
) -> Result<Stems, Refusal>
    ensures { AlignsStemEdges axis group stem_adjust top_to_bottom anchor rule standards.now (outcome_of axis result) }
{
    stems_refusal(axis, top_to_bottom, anchor, rule, standards)?;
    let dim = axis.dim;
    let mode = Mode {
        dim,
        group,
        stem_adjust,
        rule,
    };
    Ok(align_stems(axis, mode, standards, anchor, true))
}
