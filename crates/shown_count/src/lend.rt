// The public call in lent places.
ghost use Rattle.refusals.specs.Outcome.{answer_of};
ghost use Rattle.shown_count.specs.Count.{ShownLent};

use super::count::count_shown;
use refusals::order::Refusal;

// As `count_shown`. The refusals are 1, 2, 3 and 4, which write nothing.
pub fn lend_shown(
    xs: &[i32],
    ys: &[i32],
    marks: &[u8],
    ends: &[u16],
    magnify: i32,
    black: &mut u32,
    euler: &mut i32,
) -> Result<(), Refusal>
    ensures { ShownLent xs.now ys.now marks.now ends.now magnify black.old euler.old
        (answer_of result) black.new euler.new }
{
    let shown = count_shown(xs, ys, marks, ends, magnify)?;
    let number = shown.euler;
    *black = shown.black;
    *euler = number;
    Ok(())
}
