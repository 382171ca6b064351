// Lent edges.
ghost use Rattle.std.specs.Prelude.{◌≡◌};
ghost use Rattle.refusals.specs.Outcome.{answer_of};
ghost use Rattle.refusals.specs.Refusal.{refusal};
ghost use Rattle.words_call.specs.Lent.{edges_front};

use axis::accept::few_edges;
use refusals::order::{Refusal, require};
use words::edge::EDGE_WORDS;
use words_shape::element::is_edges;

// The refusal in front of a call over lent edges and other words: their length, how many they are, and only then their words.
pub fn edges_refusal(edges: &[i32], others: bool) -> Result<(), Refusal>
    ensures { answer_of result ≡ refusal (edges_front edges.now others) }
{
    require(edges.len() % EDGE_WORDS == 0, Refusal::NotWords)?;
    require(few_edges(edges.len() / EDGE_WORDS), Refusal::TooLong)?;
    require(is_edges(edges) && others, Refusal::NotWords)
}
