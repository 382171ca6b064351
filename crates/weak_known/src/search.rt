// The first and the last touched point of a contour, from s up to e.
ghost use Rattle.std.specs.Prelude.{◌≡◌, ◌-◌, ◌≤◌, length};
ghost use Rattle.weak_contour.specs.Contour.{first_touched, last_touched};
ghost use Rattle.weak_known.specs.Walks.{found_or};

// The first touched point from s on that is in front of e, or e.
pub fn first_touched(touched: &[u8], s: usize, e: usize) -> usize
    requires { (s ≤ e) × (e ≤ length touched.now) }
    ensures { result ≡ found_or e (first_touched touched.now s (e - s)) }
{
    for i in s..e {
        if touched[i] != 0 {
            return i;
        }
    }
    e
}

// The last touched point from s on that is in front of e, or e.
pub fn last_touched(touched: &[u8], s: usize, e: usize) -> usize
    requires { (s ≤ e) × (e ≤ length touched.now) }
    ensures { result ≡ found_or e (last_touched touched.now s (e - s)) }
{
    for i in (s..e).rev() {
        if touched[i] != 0 {
            return i;
        }
    }
    e
}
