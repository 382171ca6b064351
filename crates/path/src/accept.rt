// Which outlines have no path.
ghost use Rattle.std.specs.Prelude.{◌≡◌};
ghost use Rattle.refusals.specs.Outcome.{answer_of};
ghost use Rattle.refusals.specs.Refusal.{refusal};
ghost use Rattle.path.specs.Handing.{path_tests};

use refusals::order::Refusal;
use weak::accept::outline_refusal;

// Coordinates either way, in units: what weak points can leave.
const MOST_RESULT: i32 = 196605;

// The refusal of an outline of fitted points, if there is one.
pub fn path_refusal(xs: &[i32], ys: &[i32], marks: &[u8], ends: &[u16]) -> Result<(), Refusal>
    ensures { answer_of result ≡ refusal (path_tests xs.now ys.now marks.now ends.now) }
{
    outline_refusal(xs, ys, marks, ends, MOST_RESULT)
}
