// What is refused: lists of an outline by their lengths and by their coordinates, and points.
ghost use Rattle.std.specs.Prelude.{◌≡◌, ◌&&◌};
ghost use Rattle.refusals.specs.Outcome.{answer_of};
ghost use Rattle.refusals.specs.Refusal.{refusal};
ghost use Rattle.weak_contour.specs.Limits.{most_coordinate};
ghost use Rattle.weak.specs.Weak.{coordinates_hold};
ghost use Rattle.words_call.specs.Lent.{edges_of};
ghost use Rattle.strong.specs.Strong.{list_tests, all_placed};
ghost use Rattle.strong_words.specs.Strong.{Placeable};

use super::place::strong_at;
use refusals::order::{Refusal, require};
use strong::place::is_placed;
use weak::accept::range_refusal;
use weak::limits::{MOST_COORDINATE, MOST_POINTS};

// The refusal by the lengths, if there is one.
pub fn list_refusal(
    fonts: &[i16],
    originals: &[i32],
    currents: &[i32],
    touched: &[u8],
    weak: &[u8],
) -> Result<(), Refusal>
    ensures { answer_of result ≡ refusal (list_tests fonts.now originals.now currents.now touched.now weak.now) }
{
    let n = fonts.len();
    require(n <= MOST_POINTS, Refusal::TooLong)?;
    require(originals.len() == n, Refusal::TooLong)?;
    require(currents.len() == n, Refusal::TooLong)?;
    require(touched.len() == n, Refusal::TooLong)?;
    require(weak.len() == n, Refusal::TooLong)
}

// Whether originals and currents are within the limit of coordinates.
pub fn coordinates_hold(originals: &[i32], currents: &[i32]) -> bool
    ensures { result ≡ (coordinates_hold most_coordinate originals.now && coordinates_hold most_coordinate currents.now) }
{
    range_refusal(originals, currents, MOST_COORDINATE).is_ok()
}

// Whether no point is refused.
pub fn all_placed(
    words: &[i32],
    fonts: &[i16],
    originals: &[i32],
    touched: &[u8],
    weak: &[u8],
) -> bool
    requires { Placeable words.now fonts.now originals.now touched.now weak.now }
    ensures { result ≡ all_placed (edges_of words.now) fonts.now originals.now touched.now weak.now }
{
    let n = fonts.len();
    for i in 0..n {
        if !is_placed(strong_at(words, fonts, originals, touched, weak, i)) {
            return false;
        }
    }
    true
}
