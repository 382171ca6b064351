// Which outlines are refused.
ghost use Rattle.std.specs.Prelude.{◌≡◌, ◌/◌, ◌<◌, pos, nat_abs, ◌<ℤ◌};
ghost use Rattle.refusals.specs.Outcome.{answer_of};
ghost use Rattle.refusals.specs.Refusal.{refusal};
ghost use Rattle.weak_contour.specs.Limits.{most_coordinate};
ghost use Rattle.shown_count.specs.Count.{shown_tests};

use axis::accept::is_inside;
use refusals::order::{Refusal, require};
use weak::accept::{list_refusal, range_refusal};
use weak::limits::MOST_COORDINATE;

// Coordinates are multiplied by at most this.
const MOST_MAGNIFY: i32 = 64;

// A magnification that is above 0.
pub fn times_of(magnify: i32) -> u32
    requires { pos 0 <ℤ magnify }
    ensures { result ≡ nat_abs magnify }
{
    magnify as u32
}

// What a coordinate is at most, either way, where it is at most 65,535 when it is multiplied.
fn most_before(times: u32) -> i32
    requires { 0 < times }
    ensures { result ≡ pos (most_coordinate / times) }
{
    (MOST_COORDINATE as u32 / times) as i32
}

// The refusal of an outline and its magnification, if there is one: the magnification is tested behind the lists and in front of the contour ends.
pub fn shown_refusal(
    xs: &[i32],
    ys: &[i32],
    marks: &[u8],
    ends: &[u16],
    magnify: i32,
) -> Result<(), Refusal>
    ensures { answer_of result ≡ refusal (shown_tests xs.now ys.now marks.now ends.now magnify) }
{
    let lists = list_refusal(xs, ys, marks, ends);
    if lists == Err(Refusal::TooLong) {
        return lists;
    }
    require(is_inside(magnify, 1, MOST_MAGNIFY), Refusal::BadParameter)?;
    lists?;
    range_refusal(xs, ys, most_before(times_of(magnify)))
}
