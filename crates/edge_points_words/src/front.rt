// The tests of what is lent: lengths, counts, words and choices.
ghost use Rattle.std.specs.Prelude.{◌≡◌, true, ◌&&◌, leb, eqb};
ghost use Rattle.refusals.specs.Outcome.{answer_of};
ghost use Rattle.refusals.specs.Refusal.{refusal};
ghost use Rattle.weak_contour.specs.Limits.{most_points};
ghost use Rattle.words_tables_test.specs.Held.{Held};
ghost use Rattle.edge_points_words.specs.Align.{points_front};

use axis::accept::{few_edges, few_segments};
use refusals::order::Refusal;
use weak::limits::MOST_POINTS;
use words::edge::EDGE_WORDS;
use words::segment::SEGMENT_WORDS;
use words_call::shown::both_in;
use words_shape::field::CHOICE;
use words_tables_test::test::tables_shown;

// Whether so many points are not too many, and have as many marks.
fn few_points(count: usize, marks: usize) -> bool
    ensures { result ≡ (leb count most_points && eqb marks count) }
{
    count <= MOST_POINTS && marks == count
}

// The refusal in front of the call: the lengths, how many segments, edges, points and marks they are, and only then their words, which need no test where both tables hold, and the choices.
pub fn points_front(
    segments: &[i32],
    edges: &[i32],
    held: bool,
    snap: i32,
    alone: i32,
    currents: &[i32],
    touched: &[u8],
) -> Result<(), Refusal>
    requires { held ≡ true → Held segments.now edges.now }
    ensures { answer_of result ≡ refusal (points_front segments.now edges.now snap alone currents.now touched.now) }
{
    if !(segments.len() % SEGMENT_WORDS == 0 && edges.len() % EDGE_WORDS == 0) {
        return Err(Refusal::NotWords);
    }
    let few = few_segments(segments.len() / SEGMENT_WORDS) && few_edges(edges.len() / EDGE_WORDS);
    if !(few && few_points(currents.len(), touched.len())) {
        return Err(Refusal::TooLong);
    }
    if tables_shown(segments, edges, held) && both_in(snap, alone, CHOICE) {
        return Ok(());
    }
    Err(Refusal::NotWords)
}
