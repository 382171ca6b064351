// The match test: every contour in one walk, then the points behind the last.
ghost use Rattle.std.specs.Prelude.{◌≡◌, true, ◌≤◌, length};
ghost use Rattle.weak_contour.specs.Limits.{most_points};
ghost use Rattle.weak.specs.Weak.{ends_hold};
ghost use Rattle.weak_known.specs.Known.{matches};

use super::contour::contour_same;
use super::number::NO_CONTOUR;
use super::same::plain_same;

// Whether the lists are what is known of every point.
pub fn lists_match(touched: &[u8], ends: &[u16], before: &[u16], behind: &[u16]) -> bool
    requires before_len { (length before.now ≡ length touched.now) × (length behind.now ≡ length touched.now) × (length touched.now ≤ most_points) }
    requires ends_value { ends_hold 0 (length touched.now) ends.now ≡ true }
    ensures { result ≡ matches touched.now ends.now before.now behind.now }
{
    let n = touched.len();
    let mut s: usize = 0;
    for x in ends {
        let e = usize::from(*x) + 1;
        if !contour_same(touched, before, behind, s, e) {
            return false;
        }
        s = e;
    }
    let x = plain_same(touched, before, s, n, NO_CONTOUR);
    let y = plain_same(touched, behind, s, n, NO_CONTOUR);
    x & y
}
