// The public call: what the Rust's `hint_edges`, `align_edge_points`, `align_strong_points` and `align_weak_points` do in a row, with the guard behind the first.
ghost use Rattle.refusals.specs.Outcome.{answer_of};
ghost use Rattle.edge_points.specs.Steps.{points};
ghost use Rattle.fit.specs.Fit.{given, fitted, FitLent};

use super::rooms::fit_accepted;
use fit::numbers::numbers_of;
use fit_test_words::front::fit_front;
use fit_test_words::refuse::axis_refusal;
use refusals::order::Refusal;
use words_tables_test::hold::tables_hold;

// Fits the edges of an axis and moves its points by them, and tells what became of the edges. The refusals are 255, 1, 2, 3, 4 and 8, that of a step on the way too,
// which writes nothing.
pub fn lend_fit(
    segments: &[i32],
    edges: &mut [i32],
    numbers: &[i32],
    standards: &[i32],
    fonts: &[i16],
    originals: &[i32],
    currents: &mut [i32],
    touched: &mut [u8],
    weak: &[u8],
    ends: &[u16],
    told: &mut [i32],
) -> Result<(), Refusal>
    ensures { FitLent numbers.now (given segments.now standards.now fonts.now originals.now weak.now ends.now)
        (fitted edges.old (points currents.old touched.old) told.old)
        (answer_of result) (fitted edges.new (points currents.new touched.new) told.new) }
{
    let held = tables_hold(segments, edges);
    fit_front(
        segments, edges, held, numbers, fonts, originals, currents, touched, weak, told,
    )?;
    let by = numbers_of(numbers);
    axis_refusal(
        segments, edges, held, by, standards, originals, currents, ends,
    )?;
    fit_accepted(
        segments, edges, by, standards, fonts, originals, currents, touched, weak, ends, told,
    )
}
