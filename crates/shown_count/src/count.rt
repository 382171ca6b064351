// The public call: black pixels, and their Euler number.
ghost use Rattle.std.specs.Prelude.{◌≡◌, ◌≤◌, pos, ◌-ℤ◌};
ghost use Rattle.shown_picture.specs.Rows.{most_count};
ghost use Rattle.shown_count.specs.Count.{CountsShown};
ghost use Rattle.shown_count.specs.Answer.{shown_of};

use super::accept::{shown_refusal, times_of};
use refusals::order::Refusal;
use shown_picture::picture::count_picture;

// How many pixels are black, and their Euler number.
#[derive(Clone, Copy)]
pub struct Shown {
    pub black: u32,
    pub euler: i32,
}

// The Euler number: outer less inner turns.
fn euler_of(outer: u32, inner: u32) -> i32
    requires { (outer ≤ most_count) × (inner ≤ most_count) }
    ensures { result ≡ pos outer -ℤ pos inner }
{
    outer as i32 - inner as i32
}

// Counts the pixels that a display shows black of an outline, its coordinates multiplied by `magnify`, and tells their Euler number, pieces less holes. The refusals are 1, 2 for a `magnify` outside
// 1 to 64, 3, and 4 for a coordinate that magnified leaves -65,535 to 65,535.
pub fn count_shown(
    xs: &[i32],
    ys: &[i32],
    marks: &[u8],
    ends: &[u16],
    magnify: i32,
) -> Result<Shown, Refusal>
    ensures { CountsShown xs.now ys.now marks.now ends.now magnify (shown_of result) }
{
    shown_refusal(xs, ys, marks, ends, magnify)?;
    let counts = count_picture(xs, ys, marks, ends, times_of(magnify));
    let euler = euler_of(counts.outer, counts.inner);
    Ok(Shown {
        black: counts.black,
        euler,
    })
}
