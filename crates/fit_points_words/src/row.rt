// The steps of the row, each with all that comes behind it.
ghost use Rattle.refusals.specs.Outcome.{answer_of};
ghost use Rattle.edge_points.specs.Steps.{points};
ghost use Rattle.fit.specs.Points.{then_strong, fit_points};
ghost use Rattle.fit_points_words.specs.Row.{Ready, ReadyStrong, WentPoints};

use edge_points_words::pass::move_all;
use edge_points_words::test::movers_hold;
use fit::numbers::Numbers;
use refusals::order::Refusal;
use strong_words::place::place_each;
use weak::accept::currents_refusal;
use weak::limits::MOST_COORDINATE;
use weak::reach::coordinates_hold;
use weak::weak::align_unrefused;

// Strong points, and then weak points.
fn then_strong(
    edges: &[i32],
    fonts: &[i16],
    originals: &[i32],
    currents: &mut [i32],
    touched: &mut [u8],
    weak: &[u8],
    ends: &[u16],
) -> Result<(), Refusal>
    requires { ReadyStrong edges.now fonts.now originals.now weak.now ends.now (points currents.old touched.old) }
    ensures { WentPoints (then_strong edges.now fonts.now originals.now weak.now ends.now (points currents.old touched.old))
        (answer_of result) (points currents.new touched.new) }
{
    if !coordinates_hold(currents, MOST_COORDINATE) {
        return Err(Refusal::OutOfRange);
    }
    if !place_each(edges, fonts, originals, currents, touched, weak) {
        return Err(Refusal::TooSteep);
    }
    let tested = currents_refusal(originals, currents, touched, ends);
    align_unrefused(originals, currents, touched, ends, tested)
}

// Moves the points of an outline that is not refused by edges that are fitted. The refusal of a step leaves the points as the steps before did.
pub fn fit_points(
    segments: &[i32],
    edges: &[i32],
    by: Numbers,
    fonts: &[i16],
    originals: &[i32],
    currents: &mut [i32],
    touched: &mut [u8],
    weak: &[u8],
    ends: &[u16],
) -> Result<(), Refusal>
    requires { Ready segments.now edges.now fonts.now originals.now weak.now ends.now (points currents.old touched.old) }
    ensures { WentPoints (fit_points by segments.now edges.now fonts.now originals.now weak.now ends.now (points currents.old touched.old))
        (answer_of result) (points currents.new touched.new) }
{
    if !movers_hold(segments, edges, by.alone) {
        return Err(Refusal::OutOfRange);
    }
    move_all(segments, edges, by.snap, by.alone, currents, touched, ends);
    then_strong(edges, fonts, originals, currents, touched, weak, ends)
}
