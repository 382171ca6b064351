// The answer to lent edges beside a call's own tests: 0 by the one loop, or else the exact refusal.
ghost use Rattle.std.specs.Prelude.{◌≡◌};
ghost use Rattle.refusals.specs.Outcome.{answer_of};
ghost use Rattle.words_call.specs.Lent.{refused_or, edges_front, edges_of};
ghost use Rattle.words_edge_test.specs.Held.{tested};

use super::exact::{indices_hold, numbers_hold};
use super::hold::edges_hold;
use refusals::order::Refusal;
use words_call::edges::edges_refusal;

// The refusal of edges in front of a call and by its tests: the first that fails, in its order.
fn exact_refusal(
    words: &[i32],
    others: bool,
    own: Result<(), Refusal>,
    named: bool,
    passed: bool,
) -> Result<(), Refusal>
    ensures { (answer_of result) ≡ refused_or (edges_front words.now others) (tested (edges_of words.now) (answer_of own) named passed) }
{
    edges_refusal(words, others)?;
    own?;
    if !(indices_hold(words) && named) {
        return Err(Refusal::BadIndex);
    }
    if numbers_hold(words) && passed {
        return Ok(());
    }
    Err(Refusal::OutOfRange)
}

// The answer to lent edges: whether the call's other words are those of their fields, the refusal by its parameters if there is one, whether the edges that it names are edges, and whether the
// numbers that it passes are accepted.
pub fn edges_test(
    words: &[i32],
    others: bool,
    own: Result<(), Refusal>,
    named: bool,
    passed: bool,
) -> Result<(), Refusal>
    ensures { (answer_of result) ≡ refused_or (edges_front words.now others) (tested (edges_of words.now) (answer_of own) named passed) }
{
    if others && own.is_ok() && named && passed && edges_hold(words) {
        return Ok(());
    }
    exact_refusal(words, others, own, named, passed)
}
