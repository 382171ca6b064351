// The tests in front: lengths, counts and words.
ghost use Rattle.std.specs.Prelude.{◌≡◌, true, ◌&&◌, ◌%◌, eqb, length};
ghost use Rattle.refusals.specs.Outcome.{answer_of};
ghost use Rattle.refusals.specs.Refusal.{refusal};
ghost use Rattle.edge_points.specs.Steps.{points};
ghost use Rattle.words_tables_test.specs.Held.{Held};
ghost use Rattle.words.specs.Edge.{edge_size};
ghost use Rattle.words.specs.Segment.{segment_size};
ghost use Rattle.fit.specs.Numbers.{number_size};
ghost use Rattle.fit.specs.Fit.{told_size, fitted, fit_front};

use axis::accept::{few_edges, few_segments};
use fit::numbers::{NUMBER_WORDS, numbers_shown};
use fit::outcome::TOLD_WORDS;
use refusals::order::Refusal;
use strong_words::refuse::list_refusal;
use words::edge::EDGE_WORDS;
use words::segment::SEGMENT_WORDS;
use words_tables_test::test::tables_shown;

// Whether lengths are those of whole records, of the numbers, and of what is told.
fn lengths_hold(segments: usize, edges: usize, numbers: usize, told: usize) -> bool
    ensures { result ≡ ((eqb (segments % segment_size) 0 && eqb (edges % edge_size) 0) && (eqb numbers number_size && eqb told told_size)) }
{
    let records = segments % SEGMENT_WORDS == 0 && edges % EDGE_WORDS == 0;
    records && numbers == NUMBER_WORDS && told == TOLD_WORDS
}

// The refusal in front of the call: the lengths, how many segments, edges and points there are, and only then their words, which need no test where both tables hold, and the numbers.
pub fn fit_front(
    segments: &[i32],
    edges: &[i32],
    held: bool,
    numbers: &[i32],
    fonts: &[i16],
    originals: &[i32],
    currents: &[i32],
    touched: &[u8],
    weak: &[u8],
    told: &[i32],
) -> Result<(), Refusal>
    requires { held ≡ true → Held segments.now edges.now }
    ensures { answer_of result ≡ refusal (fit_front segments.now numbers.now fonts.now originals.now weak.now
        (fitted edges.now (points currents.now touched.now) told.now)) }
{
    if !lengths_hold(segments.len(), edges.len(), numbers.len(), told.len()) {
        return Err(Refusal::NotWords);
    }
    let few = few_segments(segments.len() / SEGMENT_WORDS) && few_edges(edges.len() / EDGE_WORDS);
    let lists = list_refusal(fonts, originals, currents, touched, weak);
    if !(few && lists.is_ok()) {
        return Err(Refusal::TooLong);
    }
    if tables_shown(segments, edges, held) && numbers_shown(numbers) {
        return Ok(());
    }
    Err(Refusal::NotWords)
}
