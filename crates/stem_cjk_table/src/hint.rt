// The call.
ghost use Rattle.std.specs.Prelude.{◌≡◌, ◌<◌};
ghost use Rattle.refusals.specs.Outcome.{answer_of};
ghost use Rattle.signed.specs.Range.{Between};
ghost use Rattle.refusals.specs.Refusal.{refusal};
ghost use Rattle.axis.specs.Limits.{most_edges, most_pos};
ghost use Rattle.axis.specs.Accepted.{AxisWithin};
ghost use Rattle.stems_cjk.specs.Cjk.{placed_stem, hinted_stem, most_width, most_cjk_start};
ghost use Rattle.stems_cjk.specs.Hint.{stem_tests, HintsNormalStemCjk};
ghost use Rattle.stems_cjk.specs.Answer.{outcome_of};

use axis::accept::{edges_indices, edges_numbers, few_edges, is_inside};
use axis::edge::{Axis, with_pos};
use axis::kinds::Mark;
use axis::limits::{LEAST_PASSED, MOST_PASSED};
use fixed::width::{WidthRule, rule_holds};
use place::named::both_below;
use refusals::order::{Refusal, require};
use stems_cjk::outcome::StemCjk;
use stems_cjk::stem::{Stem, stem_of};

// Places the lower edge of a stem, then the upper one.
fn place_stem(axis: Axis, lower: usize, upper: usize, pos: i32, width: i32) -> Axis
    requires lower_lt_most_edges { (lower < most_edges) × (upper < most_edges) }
    requires between { Between most_cjk_start most_cjk_start pos × Between most_width most_width width }
    ensures { result ≡ placed_stem axis lower upper pos width }
{
    let mut placed = axis;
    placed.edges[lower] = with_pos(placed.edges[lower], pos, Mark::Stem);
    placed.edges[upper] = with_pos(placed.edges[upper], pos + width, Mark::Stem);
    placed
}

// The axis with a stem placed, its edge of the smaller original position below.
fn hint_stem(axis: Axis, edge: usize, edge2: usize, stem: Stem) -> Axis
    requires axis_within { AxisWithin most_pos axis × (edge < axis.len) × (edge2 < axis.len) }
    requires between { Between most_cjk_start most_cjk_start stem.pos × Between most_width most_width stem.width }
    ensures { result ≡ hinted_stem axis edge edge2 stem }
{
    let edge1 = axis.edges[edge];
    let other = axis.edges[edge2];
    if edge1.opos < other.opos {
        return place_stem(axis, edge, edge2, stem.pos, stem.width);
    }
    place_stem(axis, edge2, edge, stem.pos, stem.width)
}

// The refusal of the call, if there is one.
fn stem_refusal(
    axis: Axis,
    rule: WidthRule,
    standards: &[i32],
    edge: usize,
    edge2: usize,
    delta: i32,
) -> Result<(), Refusal>
    ensures { answer_of result ≡ refusal (stem_tests axis rule standards.now edge edge2 delta) }
{
    require(few_edges(axis.len), Refusal::TooLong)?;
    require(rule_holds(rule, standards), Refusal::BadParameter)?;
    require(edges_indices(axis), Refusal::BadIndex)?;
    require(both_below(edge, edge2, axis.len), Refusal::BadIndex)?;
    require(edges_numbers(axis), Refusal::OutOfRange)?;
    require(
        is_inside(delta, LEAST_PASSED, MOST_PASSED),
        Refusal::OutOfRange,
    )
}

// Adjusts both edges of a stem and hands back what it was moved by.
pub fn hint_normal_stem_cjk(
    axis: Axis,
    stem_adjust: bool,
    rule: WidthRule,
    standards: &[i32],
    edge: usize,
    edge2: usize,
    delta: i32,
) -> Result<StemCjk, Refusal>
    ensures { HintsNormalStemCjk axis stem_adjust rule standards.now edge edge2 delta (outcome_of axis result) }
{
    stem_refusal(axis, rule, standards, edge, edge2, delta)?;
    let dim = axis.dim;
    let stem = stem_of(
        dim,
        stem_adjust,
        rule,
        standards,
        axis.edges[edge],
        axis.edges[edge2],
        delta,
    );
    Ok(StemCjk {
        delta: stem.delta,
        axis: hint_stem(axis, edge, edge2, stem),
    })
}
