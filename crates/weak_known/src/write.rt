// The numbers of one contour's points, written into a list.
ghost use Rattle.std.specs.Prelude.{◌-◌, ◌≤◌, ◌<◌, length};
ghost use Rattle.weak_known.specs.Walks.{plain_at, prior_at, later_at, Put};

use super::number::{handed, number};

// Writes v from s up to e, but for touched points their number.
pub fn plain_write(touched: &[u8], list: &mut [u16], s: usize, e: usize, v: u16)
    requires { (s ≤ e) × (e ≤ length touched.now) × (e ≤ length list.old) }
    ensures { Put (plain_at touched.now v) s e list.old list.new }
{
    for i in s..e {
        let x = number(touched[i], v);
        list[i] = x;
    }
}

// Writes the touched points in front.
pub fn prior_write(touched: &[u8], list: &mut [u16], s: usize, e: usize, last: u16)
    requires { (s ≤ e) × (e ≤ length touched.now) × (e ≤ length list.old) × (e ≤ 65535) }
    ensures { Put (prior_at touched.now s last) s e list.old list.new }
{
    let mut held = last;
    for i in s..e {
        let x = number(touched[i], held);
        list[i] = x;
        held = handed(touched[i], i, held);
    }
}

// Writes the touched points behind.
pub fn later_write(touched: &[u8], list: &mut [u16], s: usize, e: usize, first: u16)
    requires { (s ≤ e) × (e ≤ length touched.now) × (e ≤ length list.old) × (e ≤ 65535) }
    ensures { Put (later_at touched.now e first) s e list.old list.new }
{
    let mut held = first;
    for i in (s..e).rev() {
        let x = number(touched[i], held);
        list[i] = x;
        held = handed(touched[i], i, held);
    }
}
