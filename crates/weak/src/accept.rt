// Which outlines are refused: the tests that weak points and the path share, and those of weak points.
ghost use Rattle.std.specs.Prelude.{◌≡◌, true, pos, nat_abs, ◌≤ℤ◌};
ghost use Rattle.refusals.specs.Outcome.{answer_of};
ghost use Rattle.refusals.specs.Refusal.{refusal};
ghost use Rattle.weak_contour.specs.Limits.{most_coordinate};
ghost use Rattle.weak.specs.Weak.{ends_hold, coordinates_hold, list_tests, range_tests, outline_tests, number_tests, weak_tests};
ghost use Rattle.weak.specs.Steps.{all_near};

use super::limits::{MOST_COORDINATE, MOST_NEAR, MOST_POINTS};
use super::reach::{coordinates_hold, is_calm, reach_of};
use super::steep::too_steep;
use refusals::order::Refusal;

// Whether the contour ends rise strictly, each below the point count.
pub fn ends_hold(ends: &[u16], count: usize) -> bool
    ensures { result ≡ ends_hold 0 count ends.now }
{
    let mut start: usize = 0;
    for x in ends {
        let end = usize::from(*x);
        if end < start {
            return false;
        }
        if count <= end {
            return false;
        }
        start = end + 1;
    }
    true
}

// The refusal of an outline by its lists and contour ends, if any.
pub fn list_refusal(
    originals: &[i32],
    currents: &[i32],
    touched: &[u8],
    ends: &[u16],
) -> Result<(), Refusal>
    ensures { answer_of result ≡ refusal (list_tests originals.now currents.now touched.now ends.now) }
{
    if MOST_POINTS < originals.len() {
        return Err(Refusal::TooLong);
    }
    if currents.len() != originals.len() {
        return Err(Refusal::TooLong);
    }
    if touched.len() != originals.len() {
        return Err(Refusal::TooLong);
    }
    if !ends_hold(ends, originals.len()) {
        return Err(Refusal::BadIndex);
    }
    Ok(())
}

// The refusal by its coordinates, two a point, each at most `most` either way, if any.
pub fn range_refusal(originals: &[i32], currents: &[i32], most: i32) -> Result<(), Refusal>
    requires { pos 0 ≤ℤ most }
    ensures { answer_of result ≡ refusal (range_tests (nat_abs most) originals.now currents.now) }
{
    if !coordinates_hold(originals, most) {
        return Err(Refusal::OutOfRange);
    }
    if !coordinates_hold(currents, most) {
        return Err(Refusal::OutOfRange);
    }
    Ok(())
}

// The refusal by both in this order, if any: the first test that fails ends the tests, since each goes over a whole list.
pub fn outline_refusal(
    originals: &[i32],
    currents: &[i32],
    touched: &[u8],
    ends: &[u16],
    most: i32,
) -> Result<(), Refusal>
    requires { pos 0 ≤ℤ most }
    ensures { answer_of result ≡ refusal (outline_tests (nat_abs most) originals.now currents.now touched.now ends.now) }
{
    list_refusal(originals, currents, touched, ends)?;
    range_refusal(originals, currents, most)
}

// Whether originals are within the range and currents near 0. Then no number refuses: callers ask this first, so that an ordinary outline is done with two short loops.
pub fn all_near(originals: &[i32], currents: &[i32]) -> bool
    ensures { result ≡ all_near originals.now currents.now }
{
    if !coordinates_hold(originals, MOST_COORDINATE) {
        return false;
    }
    coordinates_hold(currents, MOST_NEAR)
}

// The refusal of an outline that its lists and contour ends pass, by the coordinates of weak points and by a point that is too steep, if any. Where no two currents are
// far apart no contour is walked.
pub fn number_refusal(
    originals: &[i32],
    currents: &[i32],
    touched: &[u8],
    ends: &[u16],
) -> Result<(), Refusal>
    requires { refusal (list_tests originals.now currents.now touched.now ends.now) ≡ 0 }
    ensures { answer_of result ≡ refusal (number_tests originals.now currents.now touched.now ends.now) }
{
    if !coordinates_hold(originals, MOST_COORDINATE) {
        return Err(Refusal::OutOfRange);
    }
    if !coordinates_hold(currents, MOST_COORDINATE) {
        return Err(Refusal::OutOfRange);
    }
    if is_calm(reach_of(currents)) {
        return Ok(());
    }
    if too_steep(originals, currents, touched, ends) {
        return Err(Refusal::TooSteep);
    }
    Ok(())
}

// The refusal of weak points by their currents and by a point that is too steep, where lists, contour ends and originals are passed, if any: an ordinary outline's currents are near 0.
pub fn currents_refusal(
    originals: &[i32],
    currents: &[i32],
    touched: &[u8],
    ends: &[u16],
) -> Result<(), Refusal>
    requires { (refusal (list_tests originals.now currents.now touched.now ends.now) ≡ 0) × (coordinates_hold most_coordinate originals.now ≡ true) }
    ensures { answer_of result ≡ refusal (weak_tests originals.now currents.now touched.now ends.now) }
{
    if coordinates_hold(currents, MOST_NEAR) {
        return Ok(());
    }
    number_refusal(originals, currents, touched, ends)
}

// The refusal of weak points, if any.
pub fn weak_refusal(
    originals: &[i32],
    currents: &[i32],
    touched: &[u8],
    ends: &[u16],
) -> Result<(), Refusal>
    ensures { answer_of result ≡ refusal (weak_tests originals.now currents.now touched.now ends.now) }
{
    list_refusal(originals, currents, touched, ends)?;
    if !coordinates_hold(originals, MOST_COORDINATE) {
        return Err(Refusal::OutOfRange);
    }
    currents_refusal(originals, currents, touched, ends)
}
