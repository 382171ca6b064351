// The public call in lent places: the step's kind, its places' four numbers and the next cursor.
ghost use Rattle.std.specs.Prelude.{◌≡◌};
ghost use Rattle.refusals.specs.Outcome.{answer_of};
ghost use Rattle.path.specs.Lending.{four, StepLent};

use super::hand::{Cursor, path_step};
use path_places::{PixelPoint, no_place};
use path_trip::step::{first_of, kind_of, second_of};
use refusals::order::Refusal;

fn put_four(places: &mut [f32; 4], p: PixelPoint, q: PixelPoint)
    ensures { places.new ≡ four p q }
{
    *places = [p.x, p.y, q.x, q.y];
}

// As `path_step`. The refusals are 1, 3 and 4, which write nothing. Beside none the kind is 1 for a move, 2 for a line, 3 for
// a curve and 4 for a close; where the path is finished, 0 with no place, and the next cursor is the cursor.
pub fn lend_step(
    xs: &[i32],
    ys: &[i32],
    marks: &[u8],
    ends: &[u16],
    cursor: u32,
    kind: &mut u8,
    places: &mut [f32; 4],
    next: &mut u32,
) -> Result<(), Refusal>
    ensures { StepLent xs.now ys.now marks.now ends.now cursor kind.old places.old next.old
        (answer_of result) kind.new places.new next.new }
{
    match path_step(xs, ys, marks, ends, Cursor { at: cursor })? {
        None => {
            *kind = 0;
            put_four(places, no_place(), no_place());
            *next = cursor;
        }
        Some((step, after)) => {
            *kind = kind_of(step);
            put_four(places, first_of(step), second_of(step));
            *next = after.at;
        }
    }
    Ok(())
}
