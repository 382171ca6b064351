// The public call: all steps of an outline's path.
ghost use Rattle.std.specs.Prelude.{◌≡◌, ◌≤◌};
ghost use Rattle.refusals.specs.Outcome.{answer_of};
ghost use Rattle.path_lay.specs.Laying.{lent};
ghost use Rattle.path_whole.specs.Writing.{WritesPath};

use super::room::whole_refusal;
use path_lay::lay::lay_path;
use refusals::order::Refusal;

// A count of steps, which is small.
fn counted(x: usize) -> u32
    requires { x ≤ 65535 }
    ensures { result ≡ x }
{
    x as u32
}

// Writes all steps of the outline's path: their kinds, 1 for a move, 2 for a line, 3 for a curve and 4 for a close, their places, four numbers to a step, and how
// many steps there are. A refusal writes nothing; it is 1 also where there is room for fewer than points + 2 ·
// contours steps, else those of `path_step`. What stands behind the steps stays.
pub fn path(
    xs: &[i32],
    ys: &[i32],
    marks: &[u8],
    ends: &[u16],
    kinds: &mut [u8],
    places: &mut [f32],
    count: &mut u32,
) -> Result<(), Refusal>
    ensures { WritesPath xs.now ys.now marks.now ends.now (lent kinds.old places.old count.old)
        (answer_of result) (lent kinds.new places.new count.new) }
{
    whole_refusal(xs, ys, marks, ends, kinds.len(), places.len())?;
    let steps = lay_path(xs, ys, marks, ends, kinds, places);
    *count = counted(steps);
    Ok(())
}
