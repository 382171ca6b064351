// The public call.
ghost use Rattle.std.specs.Prelude.{◌≡◌};
ghost use Rattle.refusals.specs.Outcome.{answer_of};
ghost use Rattle.weak_drag.specs.Drag.{Dragged};

use super::refit::refit;
use super::refuse::drag_refusal;
use refusals::order::Refusal;

// Fits again what depends on a touched point whose current the caller has set: each untouched point of which it is a reference gets what `align_weak_points` would give it, and
// nothing else is written. The refusals are 1, 3, 4 and 8, which write nothing: those of `align_weak_points`, and 3 for a point that is not there or not
// touched. The only touched point of a contour, set back on its original, moves nothing.
pub fn drag_point(
    originals: &[i32],
    currents: &mut [i32],
    touched: &[u8],
    ends: &[u16],
    point: usize,
) -> Result<(), Refusal>
    ensures { Dragged originals.now currents.old touched.now ends.now point (answer_of result) currents.new }
{
    drag_refusal(originals, currents, touched, ends, point)?;
    refit(originals, currents, touched, ends, point);
    Ok(())
}

// A point's number as an index.
fn index_of(x: u32) -> usize
    ensures { result ≡ x }
{
    x as usize
}

// The same, with the point as a number of 32 bits, as C has it.
pub fn lend_drag(
    originals: &[i32],
    currents: &mut [i32],
    touched: &[u8],
    ends: &[u16],
    point: u32,
) -> Result<(), Refusal>
    ensures { Dragged originals.now currents.old touched.now ends.now point (answer_of result) currents.new }
{
    drag_point(originals, currents, touched, ends, index_of(point))
}
