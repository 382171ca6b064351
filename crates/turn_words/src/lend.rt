// The converter over lent segments and lent edges.
ghost use Rattle.std.specs.Prelude.{◌≡◌};
ghost use Rattle.refusals.specs.Outcome.{answer_of};
ghost use Rattle.refusals.specs.Refusal.{refusal};
ghost use Rattle.turn_words.specs.Lent.{turn_front, TurnedLent};

use super::pass::{turn_edges_in, turn_segments_in};
use super::test::turn_refusal;
use axis::accept::{few_edges, few_segments};
use refusals::order::{Refusal, require};
use words::edge::EDGE_WORDS;
use words::segment::SEGMENT_WORDS;
use words_shape::element::{is_edges, is_segments};

// The refusal in front of a call over both lists: the lengths, how many segments and edges they are, and only then their words.
pub fn turning_front(segments: &[i32], edges: &[i32]) -> Result<(), Refusal>
    ensures { answer_of result ≡ refusal (turn_front segments.now edges.now) }
{
    require(segments.len() % SEGMENT_WORDS == 0, Refusal::NotWords)?;
    require(edges.len() % EDGE_WORDS == 0, Refusal::NotWords)?;
    require(
        few_segments(segments.len() / SEGMENT_WORDS),
        Refusal::TooLong,
    )?;
    require(few_edges(edges.len() / EDGE_WORDS), Refusal::TooLong)?;
    require(is_segments(segments), Refusal::NotWords)?;
    require(is_edges(edges), Refusal::NotWords)
}

// Turns the edges of an axis over, with the indices that lead to them.
pub fn lend_turning(segments: &mut [i32], edges: &mut [i32]) -> Result<(), Refusal>
    ensures { TurnedLent segments.old edges.old (answer_of result) (segments.new, edges.new) }
{
    turning_front(segments, edges)?;
    turn_refusal(segments, edges)?;
    turn_segments_in(segments, edges.len() / EDGE_WORDS);
    turn_edges_in(edges);
    Ok(())
}
