// Remaining edges over lent edges: they are tested where their words stand, aligned in a copy, and written.
ghost use Rattle.refusals.specs.Outcome.{answer_of};
ghost use Rattle.remaining_words.specs.Lent.{RemainingLent};

use super::copied::align_copied;
use axis::accept::link_holds;
use refusals::order::Refusal;
use remaining::kinds::Progress;
use words::edge::EDGE_WORDS;
use words::field::{group_of, link_word};
use words::word::size_of;
use words_call::shown::both_in;
use words_call::word::named_anchor;
use words_edge_test::test::edges_test;
use words_shape::field::{CHOICE, INDEX, is_in};

// Aligns the edges that blue zones and stems have left, and tells the anchor.
pub fn lend_remaining(
    edges: &mut [i32],
    dim: i32,
    group: i32,
    count: i32,
    anchor: i32,
    found: &mut i32,
) -> Result<(), Refusal>
    ensures { RemainingLent edges.old dim group count anchor found.old (answer_of result) (edges.new, found.new) }
{
    let others = both_in(dim, group, CHOICE) && is_in(count, INDEX);
    let start = named_anchor(anchor);
    let named = link_holds(start, edges.len() / EDGE_WORDS);
    edges_test(edges, others, Ok(()), named, true)?;
    let begun = Progress {
        anchor: start,
        count: size_of(count),
        beyond: false,
    };
    let past = align_copied(edges, group_of(group), begun);
    if past.beyond {
        return Err(Refusal::TooSteep);
    }
    let last = past.anchor;
    *found = link_word(last);
    Ok(())
}
