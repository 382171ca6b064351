// Lent segments and lent edges mended, and what was altered listed.
ghost use Rattle.std.specs.Prelude.{◌≡◌, true, ◌*◌, length};
ghost use Rattle.refusals.specs.Outcome.{answer_of};
ghost use Rattle.mend.specs.Altered.{most_altered};
ghost use Rattle.turn.specs.Indices.{segments_edges};
ghost use Rattle.words.specs.Edge.{edges_in};
ghost use Rattle.words.specs.Segment.{flat_segments};
ghost use Rattle.words_edge.specs.Whole as Edges;
ghost use Rattle.words_segment.specs.Whole as Segments;
ghost use Rattle.mend_amend_words.specs.Listing.{alteration_size};
ghost use Rattle.mend_words.specs.Mending.{MendedIn, MendedLent};

use super::plan::plan_in;
use super::test::mend_refusal;
use axis::limits::{MOST_EDGES, MOST_SEGMENTS};
use mend_amend_words::amend::{ALTERATION_WORDS, MOST_ALTERED};
use mend_amend_words::pass::{amend_edges, amend_segments};
use refusals::order::Refusal;
use turn_words::lend::turning_front;
use words::word::count_word;

// Mends segments and edges that no other test refuses.
fn mend_in(
    segments: &mut [i32],
    edges: &mut [i32],
    altered: &mut [i32],
    count: &mut i32,
) -> Result<(), Refusal>
    requires whole { Segments.Whole segments.old × Edges.Whole edges.old × (segments_edges (edges_in edges.old) (flat_segments segments.old) ≡ true) }
    requires altered_len { length altered.old ≡ alteration_size * most_altered }
    ensures { MendedIn segments.old edges.old altered.old count.old
        (answer_of result) (segments.new, (edges.new, (altered.new, count.new))) }
{
    let mut edge_of = [0u16; MOST_SEGMENTS];
    let mut next = [0u16; MOST_SEGMENTS];
    let mut broken = [false; MOST_EDGES];
    let mut lows = [0u16; MOST_EDGES];
    let mut highs = [0u16; MOST_EDGES];
    let named = plan_in(
        segments,
        edges,
        &mut edge_of,
        &mut next,
        &mut broken,
        &mut lows,
        &mut highs,
    );
    if !named {
        return Err(Refusal::BrokenRing);
    }
    let listed = amend_segments(segments, &edge_of, &next, altered);
    let listed = amend_edges(edges, &broken, &lows, &highs, altered, listed);
    *count = count_word(listed);
    Ok(())
}

// Mends an axis: indices beyond their lists become none, and broken rings are made anew; lists what was altered, and tells how many fields that are.
pub fn lend_mending(
    segments: &mut [i32],
    edges: &mut [i32],
    altered: &mut [i32],
    count: &mut i32,
) -> Result<(), Refusal>
    ensures { MendedLent segments.old edges.old altered.old count.old
        (answer_of result) (segments.new, (edges.new, (altered.new, count.new))) }
{
    if altered.len() != ALTERATION_WORDS * MOST_ALTERED {
        return Err(Refusal::NotWords);
    }
    turning_front(segments, edges)?;
    mend_refusal(segments, edges)?;
    mend_in(segments, edges, altered, count)
}
