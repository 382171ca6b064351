// The public call: outlines that stand one behind another in shared lists, each aligned by `align_weak_points` on its own parts of them.
ghost use Rattle.refusals.specs.Outcome.{answer_of};
ghost use Rattle.weak_catalogue.specs.Catalogue.{Catalogued};
ghost use Rattle.weak_catalogue.specs.Steps.{AddsUp, EachDone};

use super::counts::catalogue_refusal;
use refusals::order::{Refusal, answer_of};
use weak::weak::align_weak_points;

// Aligns each outline on its own parts of the lists, which are lent and not copied, and writes its answer.
fn align_outlines(
    originals: &[i32],
    currents: &mut [i32],
    touched: &[u8],
    ends: &[u16],
    point_counts: &[u16],
    contour_counts: &[u16],
    answers: &mut [u8],
)
    requires { AddsUp originals.now currents.old touched.now ends.now point_counts.now contour_counts.now answers.old }
    ensures { EachDone originals.now currents.old touched.now ends.now point_counts.now contour_counts.now
        currents.new answers.new }
{
    let mut point: usize = 0;
    let mut contour: usize = 0;
    for j in 0..answers.len() {
        let point_end = point + usize::from(point_counts[j]);
        let contour_end = contour + usize::from(contour_counts[j]);
        let aligned = align_weak_points(
            &originals[point..point_end],
            &mut currents[point..point_end],
            &touched[point..point_end],
            &ends[contour..contour_end],
        );
        answers[j] = answer_of(aligned);
        point = point_end;
        contour = contour_end;
    }
}

// Aligns the weak points of every outline of a catalogue. The refusal is 1, which writes nothing, where the counts do not add up to the lists or the lists of counts
// and of answers differ in length; else each outline has its own answer, 0, 1, 3, 4 or 8, and currents as if it had been called alone.
pub fn align_catalogue(
    originals: &[i32],
    currents: &mut [i32],
    touched: &[u8],
    ends: &[u16],
    point_counts: &[u16],
    contour_counts: &[u16],
    answers: &mut [u8],
) -> Result<(), Refusal>
    ensures { Catalogued originals.now currents.old touched.now ends.now point_counts.now contour_counts.now
        answers.old (answer_of result) currents.new answers.new }
{
    catalogue_refusal(
        originals,
        currents,
        touched,
        ends,
        point_counts,
        contour_counts,
        answers,
    )?;
    align_outlines(
        originals,
        currents,
        touched,
        ends,
        point_counts,
        contour_counts,
        answers,
    );
    Ok(())
}
