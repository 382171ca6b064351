// Which outlines are refused, and which lent lists are too short.
ghost use Rattle.std.specs.Prelude.{◌≡◌, leb};
ghost use Rattle.refusals.specs.Outcome.{answer_of};
ghost use Rattle.refusals.specs.Refusal.{refusal};
ghost use Rattle.path_whole.specs.Writing.{most_steps, has_room, whole_tests};

use path::accept::path_refusal;
use refusals::order::Refusal;

// Whether a list has room for points + 2 · contours steps: found by what is left of it, since that sum can wrap.
fn fits_in(points: usize, contours: usize, steps: usize) -> bool
    ensures { result ≡ leb (most_steps points contours) steps }
{
    if steps < points {
        return false;
    }
    contours <= (steps - points) / 2
}

// Whether both lent lists have.
fn has_room(points: usize, contours: usize, kinds: usize, places: usize) -> bool
    ensures { result ≡ has_room points contours kinds places }
{
    if !fits_in(points, contours, kinds) {
        return false;
    }
    fits_in(points, contours, places / 4)
}

// The refusal of an outline with as many kinds and numbers lent, if there is one.
pub fn whole_refusal(
    xs: &[i32],
    ys: &[i32],
    marks: &[u8],
    ends: &[u16],
    kinds: usize,
    places: usize,
) -> Result<(), Refusal>
    ensures { answer_of result ≡ refusal (whole_tests xs.now ys.now marks.now ends.now kinds places) }
{
    if !has_room(xs.len(), ends.len(), kinds, places) {
        return Err(Refusal::TooLong);
    }
    path_refusal(xs, ys, marks, ends)
}
