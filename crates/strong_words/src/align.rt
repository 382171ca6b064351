// The public call (the Rust's `align_strong_points`, for one axis).
ghost use Rattle.refusals.specs.Outcome.{answer_of};
ghost use Rattle.strong_words.specs.Strong.{StrongLent};

use super::place::place_each;
use super::refuse::{all_placed, coordinates_hold, list_refusal};
use refusals::order::Refusal;
use words_edge_test::test::edges_test;

// Aligns the points that are neither touched nor weak by the edges around them, and touches them. The refusals, which write nothing, are 255, 1, 3 and 4, and 8
// where such a point lies between two edges whose quotient is too steep, or would leave the range of positions.
pub fn align_strong_points(
    edges: &[i32],
    fonts: &[i16],
    originals: &[i32],
    currents: &mut [i32],
    touched: &mut [u8],
    weak: &[u8],
) -> Result<(), Refusal>
    ensures { StrongLent edges.now fonts.now originals.now currents.old touched.old weak.now
        (answer_of result) (currents.new, touched.new) }
{
    let own = list_refusal(fonts, originals, currents, touched, weak);
    let passed = coordinates_hold(originals, currents);
    edges_test(edges, true, own, true, passed)?;
    if !all_placed(edges, fonts, originals, touched, weak) {
        return Err(Refusal::TooSteep);
    }
    place_each(edges, fonts, originals, currents, touched, weak);
    Ok(())
}
