// Which catalogues are refused as a whole: those whose counts do not add up to their lists.
ghost use Rattle.std.specs.Prelude.{◌≡◌, eqb};
ghost use Rattle.refusals.specs.Outcome.{answer_of};
ghost use Rattle.refusals.specs.Refusal.{refusal};
ghost use Rattle.weak_catalogue.specs.Catalogue.{total, catalogue_tests};

use refusals::order::{Refusal, require};

// Whether counts add up to a length: each is taken from what remains of it, so that no sum can wrap.
fn adds_up(length: usize, counts: &[u16]) -> bool
    ensures { result ≡ eqb length (total counts.now) }
{
    let mut left = length;
    for x in counts {
        let count = usize::from(*x);
        if left < count {
            return false;
        }
        left = left - count;
    }
    left == 0
}

// The refusal of a whole catalogue, if any, from the lengths of its lists of points, of its contour ends and of its answers: the point counts are read once.
pub fn catalogue_refusal(
    originals: &[i32],
    currents: &[i32],
    touched: &[u8],
    ends: &[u16],
    point_counts: &[u16],
    contour_counts: &[u16],
    answers: &[u8],
) -> Result<(), Refusal>
    ensures { answer_of result ≡ refusal (catalogue_tests originals.now currents.now touched.now ends.now
        point_counts.now contour_counts.now answers.now) }
{
    let outlines = answers.len();
    let points = originals.len();
    require(point_counts.len() == outlines, Refusal::TooLong)?;
    require(contour_counts.len() == outlines, Refusal::TooLong)?;
    require(currents.len() == points, Refusal::TooLong)?;
    require(touched.len() == points, Refusal::TooLong)?;
    require(adds_up(points, point_counts), Refusal::TooLong)?;
    require(adds_up(ends.len(), contour_counts), Refusal::TooLong)
}
