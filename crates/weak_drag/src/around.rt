// The touched points next to one, around its contour from s up to e.
ghost use Rattle.std.specs.Prelude.{◌≤◌, ◌<◌, length, get_or};
ghost use Rattle.weak_drag.specs.Steps.{Arc};

use weak_known::search::{first_touched, last_touched};

// The next touched point behind p, which is p where no other is touched.
pub fn next_around(touched: &[u8], s: usize, e: usize, p: usize) -> usize
    requires { (s ≤ p) × (p < e) × (e ≤ length touched.now) × (0 < get_or touched.now p 0) }
    ensures { Arc touched.now s e p result }
{
    let next = first_touched(touched, p + 1, e);
    if next < e {
        return next;
    }
    first_touched(touched, s, e)
}

// The next touched point before p, which is p where no other is touched.
pub fn prior_around(touched: &[u8], s: usize, e: usize, p: usize) -> usize
    requires { (s ≤ p) × (p < e) × (e ≤ length touched.now) × (0 < get_or touched.now p 0) }
    ensures { Arc touched.now s e result p }
{
    let prior = last_touched(touched, s, p);
    if prior < p {
        return prior;
    }
    last_touched(touched, s, e)
}
