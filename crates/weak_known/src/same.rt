// The entries of one contour's points, compared with what is known of them.
ghost use Rattle.std.specs.Prelude.{◌≡◌, suc, ◌+◌, ◌-◌, ◌≤◌, ◌<◌, ltb, length};
ghost use Rattle.weak_contour.specs.Limits.{most_points};
ghost use Rattle.weak_known.specs.Known.{same_as};
ghost use Rattle.weak_known.specs.Walks.{plain_at, fits, fits_at, all_from, weight, weight_at, sum_from};

use super::number::{ONE_OR_NONE, number, number_by, shown};

// Whether the entries from s up to e are v, but of touched points their number.
pub fn plain_same(touched: &[u8], list: &[u16], s: usize, e: usize, v: u16) -> bool
    requires { (s ≤ e) × (e ≤ length touched.now) × (e ≤ length list.now) }
    ensures { result ≡ same_as list.now (plain_at touched.now v) s (e - s) }
{
    let mut ok = true;
    for i in s..e {
        let x = number(touched[i], v);
        let here = list[i] == x;
        ok = ok & here;
    }
    ok
}

// Whether the entries of two neighbours, j and i behind it, fit each other and the mark of i.
fn pair_same(
    mark: u8,
    before_j: u16,
    before_i: u16,
    behind_j: u16,
    behind_i: u16,
    j: usize,
    i: usize,
) -> bool
    requires { (j ≤ 65535) × (i ≤ 65535) }
    ensures { result ≡ fits mark before_j before_i behind_j behind_i j i }
{
    let x = number(mark, shown(before_j, j));
    let y = number_by(before_j, shown(behind_i, i));
    let front = before_i == x;
    let rear = behind_j == y;
    front & rear
}

// Whether the entries of the eight neighbours from a on fit the ones behind them: as many as the compiler compares at once.
fn eight_same(touched: &[u8], before: &[u16], behind: &[u16], a: usize) -> bool
    requires { (a + 8 < length touched.now) × (a + 8 < length before.now) × (a + 8 < length behind.now) × (a + 8 ≤ most_points) }
    ensures { result ≡ all_from (fits_at touched.now before.now behind.now) a 8 }
{
    let mut ok = true;
    for k in 0..8 {
        let j = a + k;
        let i = j + 1;
        let here = pair_same(touched[i], before[j], before[i], behind[j], behind[i], j, i);
        ok = ok & here;
    }
    ok
}

// Whether the entries of neighbours from s up to e fit, one pair at a time.
fn few_same(touched: &[u8], before: &[u16], behind: &[u16], s: usize, e: usize) -> bool
    requires { (s < e) × (e ≤ length touched.now) × (e ≤ length before.now) × (e ≤ length behind.now) × (e ≤ most_points) }
    ensures { result ≡ all_from (fits_at touched.now before.now behind.now) s (e - suc s) }
{
    for i in s + 1..e {
        let j = i - 1;
        if !pair_same(touched[i], before[j], before[i], behind[j], behind[i], j, i) {
            return false;
        }
    }
    true
}

// Whether the entries of all neighbours from s up to e fit: each entry is read in its turn and no touched point is searched for. Eight at a time, the last eight from the end: some
// pairs are compared twice, and none by itself.
pub fn pairs_same(touched: &[u8], before: &[u16], behind: &[u16], s: usize, e: usize) -> bool
    requires { (s < e) × (e ≤ length touched.now) × (e ≤ length before.now) × (e ≤ length behind.now) × (e ≤ most_points) }
    ensures { result ≡ all_from (fits_at touched.now before.now behind.now) s (e - suc s) }
{
    if e - s < 9 {
        return few_same(touched, before, behind, s, e);
    }
    let last = e - 9;
    let mut ok = true;
    for i in (s..last).step_by(8) {
        let here = eight_same(touched, before, behind, i);
        ok = ok & here;
    }
    let rest = eight_same(touched, before, behind, last);
    ok & rest
}

// The weight of a point of a contour that has one touched point or none: 2 where an entry is wrong, else 1 of a touched point.
fn weigh(mark: u8, before: u16, behind: u16) -> u16
    ensures { result ≡ weight mark «before» «behind» }
{
    let x = number(mark, ONE_OR_NONE);
    let front = before == x;
    let rear = behind == x;
    if !(front & rear) {
        return 2;
    }
    if 0 < mark {
        return 1;
    }
    0
}

// Whether the entries from s up to e are right and at most one point is touched: all weights come to less than 2.
pub fn lone_same(touched: &[u8], before: &[u16], behind: &[u16], s: usize, e: usize) -> bool
    requires { (s ≤ e) × (e ≤ length touched.now) × (e ≤ length before.now) × (e ≤ length behind.now) × (e ≤ most_points) }
    ensures { result ≡ ltb (sum_from (weight_at touched.now before.now behind.now) s (e - s)) 2 }
{
    let mut sum: u16 = 0;
    for i in s..e {
        let w = weigh(touched[i], before[i], behind[i]);
        sum = sum + w;
    }
    sum < 2
}
