// The refusals of the calls: for each its tests, in document 01's order.
ghost use Rattle.std.specs.Prelude.{◌≡◌};
ghost use Rattle.refusals.specs.Outcome.{answer_of};
ghost use Rattle.refusals.specs.Refusal.{refusal};
ghost use Rattle.place.specs.Fitting.{linked_tests, serif_tests, edge_tests};

use axis::accept::{edges_indices, edges_numbers, few_edges};
use axis::edge::Axis;
use fixed::width::{WidthRule, rule_holds};
use place::named::both_below;
use refusals::order::{Refusal, require};

// The refusal of the call on a linked edge, if there is one.
pub fn linked_refusal(
    axis: Axis,
    rule: WidthRule,
    standards: &[i32],
    base: usize,
    stem: usize,
) -> Result<(), Refusal>
    ensures { answer_of result ≡ refusal (linked_tests axis rule standards.now base stem) }
{
    require(few_edges(axis.len), Refusal::TooLong)?;
    require(rule_holds(rule, standards), Refusal::BadParameter)?;
    require(edges_indices(axis), Refusal::BadIndex)?;
    require(both_below(base, stem, axis.len), Refusal::BadIndex)?;
    require(edges_numbers(axis), Refusal::OutOfRange)
}

// The refusal of the call on a serif edge, if there is one.
pub fn serif_refusal(axis: Axis, base: usize, serif: usize) -> Result<(), Refusal>
    ensures { answer_of result ≡ refusal (serif_tests axis base serif) }
{
    require(few_edges(axis.len), Refusal::TooLong)?;
    require(edges_indices(axis), Refusal::BadIndex)?;
    require(both_below(base, serif, axis.len), Refusal::BadIndex)?;
    require(edges_numbers(axis), Refusal::OutOfRange)
}

// The refusal of the call on an edge's bounds, if there is one.
pub fn edge_refusal(axis: Axis, edge: usize) -> Result<(), Refusal>
    ensures { answer_of result ≡ refusal (edge_tests axis edge) }
{
    require(few_edges(axis.len), Refusal::TooLong)?;
    require(edges_indices(axis), Refusal::BadIndex)?;
    require(edge < axis.len, Refusal::BadIndex)?;
    require(edges_numbers(axis), Refusal::OutOfRange)
}
