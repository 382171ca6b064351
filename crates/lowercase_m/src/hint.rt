// The call.
ghost use Rattle.std.specs.Prelude.{◌≡◌};
ghost use Rattle.refusals.specs.Outcome.{answer_of};
ghost use Rattle.refusals.specs.Refusal.{refusal};
ghost use Rattle.axis.specs.Limits.{most_pos};
ghost use Rattle.axis.specs.Accepted.{AxisWithin};
ghost use Rattle.lowercase_m.specs.M.{aligned, count_holds, mTests, HintsLowercaseM};
ghost use Rattle.lowercase_m.specs.Steps.{StemsOf};
ghost use Rattle.lowercase_m.specs.Answer.{hinted_of};

use super::moves::move_stem;
use super::stems::{Stems, applies, delta_of, stems_of};
use axis::accept::{edges_indices, edges_numbers, few_edges};
use axis::edge::Axis;
use axis::kinds::Group;
use refusals::order::{Refusal, require};

// Moves the third stem to the same distance as the second, where the rule applies.
fn align_stems(axis: Axis, group: Group, stems: Stems) -> Axis
    requires { AxisWithin most_pos axis × StemsOf axis stems }
    ensures { result ≡ aligned group axis stems }
{
    let first = stems.first;
    let second = stems.second;
    let third = stems.third;
    let edge1 = axis.edges[first];
    let edge2 = axis.edges[second];
    let edge3 = axis.edges[third];
    if !applies(group, stems, edge1, edge2, edge3) {
        return axis;
    }
    let delta = delta_of(edge1.pos, edge2.pos, edge3.pos);
    move_stem(axis, third, delta)
}

// Whether an m has as many edges.
pub fn count_holds(count: usize) -> bool
    ensures { result ≡ count_holds count }
{
    if count == 6 {
        return true;
    }
    count == 12
}

// The refusal of the call, if there is one.
fn m_refusal(axis: Axis) -> Result<(), Refusal>
    ensures { answer_of result ≡ refusal (mTests axis) }
{
    require(few_edges(axis.len), Refusal::TooLong)?;
    require(count_holds(axis.len), Refusal::BadParameter)?;
    require(edges_indices(axis), Refusal::BadIndex)?;
    require(edges_numbers(axis), Refusal::OutOfRange)
}

// Makes sure that a lowercase m stays symmetric: its third stem comes to the same distance as its second.
pub fn hint_lowercase_m(axis: Axis, group: Group) -> Result<Axis, Refusal>
    ensures { HintsLowercaseM axis group (hinted_of axis result) }
{
    m_refusal(axis)?;
    let stems = stems_of(axis.len);
    Ok(align_stems(axis, group, stems))
}
