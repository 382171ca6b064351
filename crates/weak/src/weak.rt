// The public call (the Rust's `align_weak_points`, for one axis).
ghost use Rattle.std.specs.Prelude.{◌≡◌};
ghost use Rattle.refusals.specs.Outcome.{answer_of};
ghost use Rattle.refusals.specs.Refusal.{refusal};
ghost use Rattle.weak.specs.Weak.{weak_tests, Outcome};
ghost use Rattle.weak.specs.Steps.{Accepted, GentleAll, AllDone};

use super::accept::weak_refusal;
use refusals::order::Refusal;
use weak_contour::contour::align_contour;

// Aligns each contour on its own stretch of the lists.
fn align_contours(originals: &[i32], currents: &mut [i32], touched: &[u8], ends: &[u16])
    requires accepted { Accepted originals.now currents.old touched.now ends.now }
    requires gentle_all { GentleAll originals.now currents.old touched.now ends.now }
    ensures { AllDone originals.now currents.old touched.now ends.now currents.new }
{
    let mut start: usize = 0;
    for x in ends {
        let end = usize::from(*x) + 1;
        align_contour(
            &originals[start..end],
            &mut currents[start..end],
            &touched[start..end],
        );
        start = end;
    }
}

// Aligns the weak points of an outline where its tests refuse nothing, and hands their refusal on.
pub fn align_unrefused(
    originals: &[i32],
    currents: &mut [i32],
    touched: &[u8],
    ends: &[u16],
    tested: Result<(), Refusal>,
) -> Result<(), Refusal>
    requires { answer_of tested ≡ refusal (weak_tests originals.now currents.old touched.now ends.now) }
    ensures { Outcome originals.now currents.old touched.now ends.now (answer_of result) currents.new }
{
    tested?;
    align_contours(originals, currents, touched, ends);
    Ok(())
}

// Aligns the weak points of one axis. The refusals are 1, 3, 4 and 8, which write nothing.
pub fn align_weak_points(
    originals: &[i32],
    currents: &mut [i32],
    touched: &[u8],
    ends: &[u16],
) -> Result<(), Refusal>
    ensures { Outcome originals.now currents.old touched.now ends.now (answer_of result) currents.new }
{
    let tested = weak_refusal(originals, currents, touched, ends);
    align_unrefused(originals, currents, touched, ends, tested)
}
