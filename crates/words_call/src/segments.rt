// Lent segments.
ghost use Rattle.std.specs.Prelude.{◌≡◌};
ghost use Rattle.refusals.specs.Outcome.{answer_of};
ghost use Rattle.refusals.specs.Refusal.{refusal};
ghost use Rattle.words_call.specs.Lent.{segments_front};

use axis::accept::few_segments;
use refusals::order::{Refusal, require};
use words::segment::SEGMENT_WORDS;
use words_shape::element::is_segments;

// The refusal in front of a call over lent segments, room for edges and other words: the lengths, how many segments they are, and only then their words.
pub fn segments_refusal(segments: &[i32], room: bool, others: bool) -> Result<(), Refusal>
    ensures { answer_of result ≡ refusal (segments_front segments.now room others) }
{
    require(
        segments.len() % SEGMENT_WORDS == 0 && room,
        Refusal::NotWords,
    )?;
    require(
        few_segments(segments.len() / SEGMENT_WORDS),
        Refusal::TooLong,
    )?;
    require(is_segments(segments) && others, Refusal::NotWords)
}
