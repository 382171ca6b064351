// An edge placed by another one: the linked edge by its width, the serif edge by its distance.
ghost use Rattle.place.specs.Fitting.{AlignsLinkedEdge, AlignsSerifEdge};
ghost use Rattle.place.specs.Answer.{fitted_of};

use super::refusal::{linked_refusal, serif_refusal};
use axis::edge::Axis;
use fixed::width::WidthRule;
use place::place::{linked_edge, serif_edge};
use refusals::order::Refusal;

// Aligns one stem edge relative to another one.
pub fn align_linked_edge(
    axis: Axis,
    rule: WidthRule,
    standards: &[i32],
    base: usize,
    stem: usize,
) -> Result<Axis, Refusal>
    ensures { AlignsLinkedEdge axis rule standards.now base stem (fitted_of axis result) }
{
    linked_refusal(axis, rule, standards, base, stem)?;
    let mut aligned = axis;
    aligned.edges[stem] = linked_edge(rule, standards, axis.edges[base], axis.edges[stem]);
    Ok(aligned)
}

// Shifts the serif edge by what the base edge was moved by.
pub fn align_serif_edge(axis: Axis, base: usize, serif: usize) -> Result<Axis, Refusal>
    ensures { AlignsSerifEdge axis base serif (fitted_of axis result) }
{
    serif_refusal(axis, base, serif)?;
    let mut aligned = axis;
    aligned.edges[serif] = serif_edge(axis.edges[base], axis.edges[serif]);
    Ok(aligned)
}
