// An edge that passed its neighbour, put back to it.
ghost use Rattle.std.specs.Prelude.{◌≡◌};
ghost use Rattle.refusals.specs.Outcome.{answer_of};
ghost use Rattle.refusals.specs.Refusal.{refusal};
ghost use Rattle.place.specs.Fitting.{adjust_tests, AdjustsLink};
ghost use Rattle.place.specs.Answer.{fitted_of};

use axis::accept::{edges_indices, edges_numbers, few_edges};
use axis::edge::Axis;
use place::adjust::{LinkDir, adjust};
use refusals::order::{Refusal, require};

// The refusal of the call, if there is one.
fn adjust_refusal(axis: Axis, edge: usize, top_to_bottom: bool) -> Result<(), Refusal>
    ensures { answer_of result ≡ refusal (adjust_tests axis edge top_to_bottom) }
{
    require(few_edges(axis.len), Refusal::TooLong)?;
    require(!top_to_bottom, Refusal::Retired)?;
    require(edges_indices(axis), Refusal::BadIndex)?;
    require(edge < axis.len, Refusal::BadIndex)?;
    require(edges_numbers(axis), Refusal::OutOfRange)
}

// Adjusts an edge's position where it has passed its neighbour. The order can be asked for only to be refused: top to bottom is retired.
pub fn adjust_link(
    axis: Axis,
    edge: usize,
    dir: LinkDir,
    top_to_bottom: bool,
) -> Result<Axis, Refusal>
    ensures { AdjustsLink axis edge dir top_to_bottom (fitted_of axis result) }
{
    adjust_refusal(axis, edge, top_to_bottom)?;
    Ok(adjust(axis, edge, dir))
}
