// Both lists written: every contour in one walk, then the points behind the last.
ghost use Rattle.std.specs.Prelude.{◌≡◌, true, ◌≤◌, length};
ghost use Rattle.weak_contour.specs.Limits.{most_points};
ghost use Rattle.weak.specs.Weak.{ends_hold};
ghost use Rattle.weak_known.specs.Known.{before_at, behind_at};
ghost use Rattle.weak_known.specs.Walks.{Put};

use super::contour::contour_write;
use super::number::NO_CONTOUR;
use super::write::plain_write;

// Writes what is known of every point.
pub fn remember(touched: &[u8], ends: &[u16], before: &mut [u16], behind: &mut [u16])
    requires before_len { (length before.old ≡ length touched.now) × (length behind.old ≡ length touched.now) × (length touched.now ≤ most_points) }
    requires ends_value { ends_hold 0 (length touched.now) ends.now ≡ true }
    ensures { Put (before_at touched.now ends.now) 0 (length touched.now) before.old before.new
        × Put (behind_at touched.now ends.now) 0 (length touched.now) behind.old behind.new }
{
    let n = touched.len();
    let mut s: usize = 0;
    for x in ends {
        let e = usize::from(*x) + 1;
        contour_write(touched, before, behind, s, e);
        s = e;
    }
    plain_write(touched, before, s, n, NO_CONTOUR);
    plain_write(touched, behind, s, n, NO_CONTOUR);
}
