// The edges that bound an edge.
ghost use Rattle.place.specs.Fitting.{FindsLatinRemainingBounds};
ghost use Rattle.place.specs.Answer.{bounds_of};

use super::refusal::edge_refusal;
use axis::edge::Axis;
use place::bounds::{Bounds, lower_bound, upper_bound};
use refusals::order::Refusal;

// The neighbours of an edge left over in its list.
pub fn latin_remaining_bounds(axis: Axis, edge: usize) -> Result<Bounds, Refusal>
    ensures { FindsLatinRemainingBounds axis edge (bounds_of result) }
{
    edge_refusal(axis, edge)?;
    Ok(Bounds {
        lower: lower_bound(edge),
        upper: upper_bound(axis, edge),
    })
}
