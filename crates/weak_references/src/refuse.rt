// Which marks and lists are refused.
ghost use Rattle.std.specs.Prelude.{◌≡◌};
ghost use Rattle.refusals.specs.Outcome.{answer_of};
ghost use Rattle.refusals.specs.Refusal.{refusal};
ghost use Rattle.weak_references.specs.References.{remember_tests, with_tests};

use refusals::order::Refusal;
use weak::accept::{all_near, ends_hold, list_refusal, number_refusal};
use weak::limits::MOST_POINTS;
use weak_known::matching::lists_match;

// The refusal of remembering, if any.
pub fn remember_refusal(
    touched: &[u8],
    ends: &[u16],
    before: &[u16],
    behind: &[u16],
) -> Result<(), Refusal>
    ensures { answer_of result ≡ refusal (remember_tests touched.now ends.now before.now behind.now) }
{
    if MOST_POINTS < touched.len() {
        return Err(Refusal::TooLong);
    }
    if before.len() != touched.len() {
        return Err(Refusal::TooLong);
    }
    if behind.len() != touched.len() {
        return Err(Refusal::TooLong);
    }
    if !ends_hold(ends, touched.len()) {
        return Err(Refusal::BadIndex);
    }
    Ok(())
}

// The refusal of aligning by the lists, if any: whether they match is tested behind the contour ends and in front of the coordinates.
pub fn with_refusal(
    originals: &[i32],
    currents: &[i32],
    touched: &[u8],
    ends: &[u16],
    before: &[u16],
    behind: &[u16],
) -> Result<(), Refusal>
    ensures { answer_of result ≡ refusal (with_tests originals.now currents.now touched.now ends.now before.now behind.now) }
{
    if before.len() != originals.len() {
        return Err(Refusal::TooLong);
    }
    if behind.len() != originals.len() {
        return Err(Refusal::TooLong);
    }
    list_refusal(originals, currents, touched, ends)?;
    if !lists_match(touched, ends, before, behind) {
        return Err(Refusal::Unmatched);
    }
    if all_near(originals, currents) {
        return Ok(());
    }
    number_refusal(originals, currents, touched, ends)
}
