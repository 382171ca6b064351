// The alignment of one contour, on its stretch of the lists.
ghost use Rattle.std.specs.Prelude.{◌≡◌, ◌+◌, ◌≤◌, ◌<◌, length, get_or};
ghost use Rattle.weak_contour.specs.Contour.{at, refs, between_at};
ghost use Rattle.weak_contour.specs.Steps.{Coordinate, Coordinates, Wrote, GentleRefs, Next, Upto, Done, Gentle};

use super::iup::{iup_interpolate, iup_shift};

// The first touched point at or behind `from`, or the number of points.
pub fn next_touched(touched: &[u8], from: usize) -> usize
    requires { from ≤ length touched.now }
    ensures { Next touched.now from result }
{
    for i in from..touched.len() {
        if touched[i] != 0 {
            return i;
        }
    }
    touched.len()
}

// Interpolates the points from `from` up to `to`, where there are any: most touched points are neighbours, which this passes without a call.
fn interpolate_some(
    originals: &[i32],
    currents: &mut [i32],
    from: usize,
    to: usize,
    ref1: usize,
    ref2: usize,
)
    requires currents_len { (length currents.old ≡ length originals.now) × (from ≤ to) × (to ≤ length originals.now) }
    requires ref1_in_bounds { (ref1 < length originals.now) × (ref2 < length originals.now) }
    requires coordinates { Coordinates originals.now × Coordinate (at currents.old ref1) × Coordinate (at currents.old ref2) × GentleRefs originals.now currents.old (refs ref1 ref2) from to }
    ensures { Wrote (between_at originals.now currents.old (refs ref1 ref2)) from to currents.old currents.new }
{
    if from < to {
        iup_interpolate(originals, currents, from, to, ref1, ref2);
    }
}

// Interpolates the points between touched ones, from the first touched one on, and returns the last touched one.
fn align_gaps(originals: &[i32], currents: &mut [i32], touched: &[u8], first: usize) -> usize
    requires currents_len { (length currents.old ≡ length originals.now) × (length touched.now ≡ length originals.now) }
    requires first_in_bounds { (first < length originals.now) × (0 < get_or touched.now first 0) }
    requires coordinates { Coordinates originals.now × Coordinates currents.old × Gentle originals.now currents.old touched.now }
    ensures { Upto originals.now currents.old touched.now first result currents.new
        × Next touched.now (result + 1) (length touched.now) }
{
    let n = touched.len();
    let mut last = first;
    let mut next = next_touched(touched, last + 1);
    // a while: each step goes on to the next touched point
    while next < n {
        interpolate_some(originals, currents, last + 1, next, last, next);
        last = next;
        next = next_touched(touched, last + 1);
    }
    last
}

// Aligns the points of one contour: those between touched ones, then those around the contour's seam.
pub fn align_contour(originals: &[i32], currents: &mut [i32], touched: &[u8])
    requires currents_len { (length currents.old ≡ length originals.now) × (length touched.now ≡ length originals.now) }
    requires coordinates { Coordinates originals.now × Coordinates currents.old × Gentle originals.now currents.old touched.now }
    ensures { Done originals.now currents.old touched.now currents.new }
{
    let n = touched.len();
    let first = next_touched(touched, 0);
    if n <= first {
        return;
    }
    let last = align_gaps(originals, currents, touched, first);
    if last == first {
        iup_shift(originals, currents, 0, n, first);
        return;
    }
    interpolate_some(originals, currents, last + 1, n, last, first);
    interpolate_some(originals, currents, 0, first, last, first);
}
