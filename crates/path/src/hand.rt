// The public call: one step of an outline's path.
ghost use Rattle.std.specs.Prelude.{◌≡◌};
ghost use Rattle.path.specs.Handing.{HandsStep};
ghost use Rattle.path.specs.Answer.{handed_of};

use super::accept::path_refusal;
use path_trip::step::PathStep;
use path_walk::seek::path_at;
use refusals::order::Refusal;

// The number of a step, from 0 on.
#[derive(Clone, Copy)]
pub struct Cursor {
    pub at: u32,
}

// A cursor's number as that of a place in a list.
fn number_of(x: u32) -> usize
    ensures { result ≡ x }
{
    x as usize
}

// Hands out the step of the outline's path that the cursor names, with the next cursor: a cursor of 0 starts, one that names no step is finished. The outline is
// its fitted points' coordinates in units, their on-curve marks, and the ends of its contours. The refusals are 1, 3 and 4, whatever the cursor.
pub fn path_step(
    xs: &[i32],
    ys: &[i32],
    marks: &[u8],
    ends: &[u16],
    cursor: Cursor,
) -> Result<Option<(PathStep, Cursor)>, Refusal>
    ensures { HandsStep xs.now ys.now marks.now ends.now cursor.at (handed_of result) }
{
    path_refusal(xs, ys, marks, ends)?;
    let k = cursor.at;
    let sought = path_at(xs, ys, marks, ends, number_of(k));
    let Ok(step) = sought else {
        return Ok(None);
    };
    Ok(Some((step, Cursor { at: k + 1 })))
}
