// The answer to lent segments beside a call's own tests: 0 by the one loop, or else the exact refusal.
ghost use Rattle.std.specs.Prelude.{◌≡◌};
ghost use Rattle.refusals.specs.Outcome.{answer_of};
ghost use Rattle.words.specs.Segment.{flat_segments};
ghost use Rattle.words_call.specs.Lent.{refused_or, segments_front};
ghost use Rattle.words_segment_test.specs.Held.{tested};

use super::exact::{indexed_hold, numbers_hold};
use super::hold::segments_hold;
use refusals::order::Refusal;
use words_call::segments::segments_refusal;

// The refusal of segments in front of a call and by its tests: the first that fails, in its order.
fn exact_refusal(
    words: &[i32],
    room: bool,
    others: bool,
    own: Result<(), Refusal>,
    nexts: bool,
    passed: bool,
) -> Result<(), Refusal>
    ensures { (answer_of result) ≡ refused_or (segments_front words.now room others) (tested (flat_segments words.now) (answer_of own) nexts passed) }
{
    segments_refusal(words, room, others)?;
    own?;
    if !indexed_hold(words, nexts) {
        return Err(Refusal::BadIndex);
    }
    if numbers_hold(words) && passed {
        return Ok(());
    }
    Err(Refusal::OutOfRange)
}

// The answer to lent segments: whether the call's room for edges has its length, and its other words are those of their fields, the refusal by its parameters if there is one, whether it tests
// the next of each segment, and whether the numbers that it passes are accepted.
pub fn segments_test(
    words: &[i32],
    room: bool,
    others: bool,
    own: Result<(), Refusal>,
    nexts: bool,
    passed: bool,
) -> Result<(), Refusal>
    ensures { (answer_of result) ≡ refused_or (segments_front words.now room others) (tested (flat_segments words.now) (answer_of own) nexts passed) }
{
    if room && others && own.is_ok() && passed && segments_hold(words, nexts) {
        return Ok(());
    }
    exact_refusal(words, room, others, own, nexts, passed)
}
