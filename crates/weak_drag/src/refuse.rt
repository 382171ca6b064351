// Which drags are refused.
ghost use Rattle.std.specs.Prelude.{◌≡◌};
ghost use Rattle.refusals.specs.Outcome.{answer_of};
ghost use Rattle.refusals.specs.Refusal.{refusal};
ghost use Rattle.weak_drag.specs.Drag.{is_there, drag_tests};

use refusals::order::Refusal;
use weak::accept::{all_near, list_refusal, number_refusal};

// Whether the point is there and touched.
fn is_there(touched: &[u8], p: usize) -> bool
    ensures { result ≡ is_there touched.now p }
{
    if touched.len() <= p {
        return false;
    }
    0 < touched[p]
}

// The refusal of a drag, if any: the point is tested behind the contour ends and in front of the coordinates.
pub fn drag_refusal(
    originals: &[i32],
    currents: &[i32],
    touched: &[u8],
    ends: &[u16],
    p: usize,
) -> Result<(), Refusal>
    ensures { answer_of result ≡ refusal (drag_tests originals.now currents.now touched.now ends.now p) }
{
    list_refusal(originals, currents, touched, ends)?;
    if !is_there(touched, p) {
        return Err(Refusal::BadIndex);
    }
    if all_near(originals, currents) {
        return Ok(());
    }
    number_refusal(originals, currents, touched, ends)
}
