// The public call that aligns by what was remembered.
ghost use Rattle.refusals.specs.Outcome.{answer_of};
ghost use Rattle.weak_references.specs.References.{AlignedWith};

use super::refuse::with_refusal;
use refusals::order::Refusal;
use weak_known::align::align_listed;

// Aligns the weak points of one axis by the lists: what `align_weak_points` leaves. The refusals are 1, 3, 9, 4 and 8, which write nothing;
// 9 exactly where an entry is not what is known of its point.
pub fn align_with_references(
    originals: &[i32],
    currents: &mut [i32],
    touched: &[u8],
    ends: &[u16],
    before: &[u16],
    behind: &[u16],
) -> Result<(), Refusal>
    ensures { AlignedWith originals.now currents.old touched.now ends.now before.now behind.now (answer_of result) currents.new }
{
    with_refusal(originals, currents, touched, ends, before, behind)?;
    align_listed(originals, currents, touched, ends, before, behind);
    Ok(())
}
