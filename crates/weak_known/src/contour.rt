// One contour, from s up to e: its entries compared with both lists, or written.
ghost use Rattle.std.specs.Prelude.{◌≡◌, true, ◌≤◌, ◌<◌, length};
ghost use Rattle.weak_contour.specs.Limits.{most_points};
ghost use Rattle.weak_known.specs.Walks.{contour, before_on, behind_on, said_on, show_two, seam_holds, Put};

use super::number::{ONE_OR_NONE, narrow, number, shown};
use super::same::{lone_same, pairs_same};
use super::search::{first_touched, last_touched};
use super::write::{later_write, plain_write, prior_write};

// Whether the entries at both ends of the contour show two touched points of it: the first and the last, if the lists are right.
pub fn show_two(before: &[u16], behind: &[u16], s: usize, e: usize) -> bool
    requires { (s < e) × (e ≤ length before.now) × (e ≤ length behind.now) × (e ≤ most_points) }
    ensures { result ≡ show_two before.now behind.now s e }
{
    let i = e - 1;
    let first = usize::from(shown(behind[s], s));
    let last = usize::from(shown(before[i], i));
    if first < s {
        return false;
    }
    if last <= first {
        return false;
    }
    last < e
}

// Whether the first of them is touched, and the contour's first and last point refer around its seam.
fn seam_same(touched: &[u8], before: &[u16], behind: &[u16], s: usize, e: usize) -> bool
    requires s_lt_e { (s < e) × (e ≤ length touched.now) × (e ≤ length before.now) × (e ≤ length behind.now) × (e ≤ most_points) }
    requires e_value { show_two before.now behind.now s e ≡ true }
    ensures { result ≡ seam_holds touched.now before.now behind.now s e }
{
    let i = e - 1;
    let first = shown(behind[s], s);
    let last = shown(before[i], i);
    if touched[usize::from(first)] == 0 {
        return false;
    }
    let front = before[s] == number(touched[s], last);
    let rear = behind[i] == number(touched[i], first);
    front & rear
}

// Whether both lists say what is known of the contour's points.
pub fn contour_same(touched: &[u8], before: &[u16], behind: &[u16], s: usize, e: usize) -> bool
    requires { (s < e) × (e ≤ length touched.now) × (e ≤ length before.now) × (e ≤ length behind.now) × (e ≤ most_points) }
    ensures { result ≡ said_on touched.now before.now behind.now s e }
{
    if !show_two(before, behind, s, e) {
        return lone_same(touched, before, behind, s, e);
    }
    if !seam_same(touched, before, behind, s, e) {
        return false;
    }
    pairs_same(touched, before, behind, s, e)
}

// Writes what is known of the contour's points into both lists.
pub fn contour_write(touched: &[u8], before: &mut [u16], behind: &mut [u16], s: usize, e: usize)
    requires { (s < e) × (e ≤ length touched.now) × (e ≤ length before.old) × (e ≤ length behind.old) × (e ≤ 65535) }
    ensures { Put (before_on touched.now (contour s e)) s e before.old before.new
        × Put (behind_on touched.now (contour s e)) s e behind.old behind.new }
{
    let first = first_touched(touched, s, e);
    let last = last_touched(touched, s, e);
    if first == last {
        plain_write(touched, before, s, e, ONE_OR_NONE);
        plain_write(touched, behind, s, e, ONE_OR_NONE);
        return;
    }
    prior_write(touched, before, s, e, narrow(last));
    later_write(touched, behind, s, e, narrow(first));
}
