// Which jobs writing refuses.
ghost use Rattle.std.specs.Prelude.{◌≡◌};
ghost use Rattle.refusals.specs.Outcome.{answer_of};
ghost use Rattle.refusals.specs.Refusal.{refusal};
ghost use Rattle.log_frame.specs.Frame.{frame_of};
ghost use Rattle.log_frame.specs.Write.{room_for, ends_fit, numbers_fit, write_tests};

use super::limits::{MOST_COUNTED, frame_size};
use refusals::order::{Refusal, require};
use words_shape::field::{SHORT, is_in};

// Whether one byte counts the points and the contours, and a line of so many places has one for each digit.
fn room_for(points: usize, contours: usize, places: usize) -> bool
    ensures { result ≡ room_for points contours places }
{
    if MOST_COUNTED < points {
        return false;
    }
    if MOST_COUNTED < contours {
        return false;
    }
    2 * frame_size(points, contours) <= places
}

// Whether each contour end is one byte.
fn ends_fit(ends: &[u16]) -> bool
    ensures { result ≡ ends_fit ends.now }
{
    for end in ends {
        if MOST_COUNTED < usize::from(*end) {
            return false;
        }
    }
    true
}

// Whether two signed bytes hold each number.
fn numbers_fit(list: &[i32]) -> bool
    ensures { result ≡ numbers_fit list.now }
{
    for number in list {
        if !is_in(*number, SHORT) {
            return false;
        }
    }
    true
}

// The refusal of writing, if there is one.
pub fn write_refusal(
    originals: &[i32],
    currents: &[i32],
    marks: &[u8],
    ends: &[u16],
    line: &[u8],
) -> Result<(), Refusal>
    ensures { answer_of result ≡ refusal (write_tests (frame_of originals.now currents.now marks.now ends.now) line.now) }
{
    require(currents.len() == originals.len(), Refusal::TooLong)?;
    require(marks.len() == originals.len(), Refusal::TooLong)?;
    require(
        room_for(originals.len(), ends.len(), line.len()),
        Refusal::TooLong,
    )?;
    require(ends_fit(ends), Refusal::BadIndex)?;
    require(numbers_fit(originals), Refusal::OutOfRange)?;
    require(numbers_fit(currents), Refusal::OutOfRange)
}
