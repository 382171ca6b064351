// Whether a point of a contour is too steep (request #109), on the contour's stretch of the lists: nothing is written.
ghost use Rattle.std.specs.Prelude.{◌≡◌, ◌+◌, ◌≤◌, ◌<◌, nat_abs, length};
ghost use Rattle.signed.specs.Range.{Between};
ghost use Rattle.fixed.specs.Divide.{too_steep};
ghost use Rattle.weak_contour.specs.Limits.{most_delta};
ghost use Rattle.weak_contour.specs.Contour.{at, refs, steep_by, steep_at};
ghost use Rattle.weak_contour.specs.Steps.{Coordinate, Coordinates, Ordered, whole, Tells, is_between, between_originals, steep_for};

use super::contour::next_touched;
use super::iup::behind_is_first;
use fixed::point::magnitude;

// How many spans a rise is at the least whose quotient is too steep.
const STEEP_SPANS: u64 = 32768;

// Whether the quotient of a rise by a span is too steep, without dividing: rounding never decides.
fn is_steep(rise: i32, span: i32) -> bool
    requires { Between 0 most_delta span × (0 < nat_abs span) }
    ensures { result ≡ too_steep rise span }
{
    let run = magnitude(span as i64) * STEEP_SPANS;
    run <= magnitude(rise as i64)
}

// Whether an original lies strictly between two others.
fn is_between(v: i32, v1: i32, v2: i32) -> bool
    ensures { result ≡ is_between v v1 v2 }
{
    if v <= v1 {
        return false;
    }
    v < v2
}

// Whether the original of one of the points from `from` up to `to` does.
fn some_between(originals: &[i32], from: usize, to: usize, v1: i32, v2: i32) -> bool
    requires { (from ≤ to) × (to ≤ length originals.now) }
    ensures { Tells (between_originals originals.now v1 v2) from to result }
{
    for i in from..to {
        if is_between(originals[i], v1, v2) {
            return true;
        }
    }
    false
}

// Whether one of the points from `from` up to `to` is too steep for two references in their order.
fn span_steep(originals: &[i32], from: usize, to: usize, v1: i32, u1: i32, v2: i32, u2: i32) -> bool
    requires from_le_to { (from ≤ to) × (to ≤ length originals.now) }
    requires ordered { Ordered v1 u1 v2 u2 }
    ensures { Tells (steep_for originals.now v1 u1 v2 u2) from to result }
{
    if v1 == v2 {
        return false;
    }
    if !is_steep(u2 - u1, v2 - v1) {
        return false;
    }
    some_between(originals, from, to, v1, v2)
}

// Whether one of the points from `from` up to `to` is too steep for the references ref1, before them, and ref2, behind them.
fn stretch_steep(
    originals: &[i32],
    currents: &[i32],
    from: usize,
    to: usize,
    ref1: usize,
    ref2: usize,
) -> bool
    requires currents_len { (length currents.now ≡ length originals.now) × (from ≤ to) × (to ≤ length originals.now) }
    requires ref1_in_bounds { (ref1 < length originals.now) × (ref2 < length originals.now) }
    requires coordinates { Coordinates originals.now × Coordinates currents.now }
    ensures { Tells (steep_by originals.now currents.now (refs ref1 ref2)) from to result }
{
    let v1 = originals[ref1];
    let v2 = originals[ref2];
    let u1 = currents[ref1];
    let u2 = currents[ref2];
    if behind_is_first(v1, v2) {
        return span_steep(originals, from, to, v2, u2, v1, u1);
    }
    span_steep(originals, from, to, v1, u1, v2, u2)
}

// Whether a point of the contour is too steep: those between touched ones, then those around the contour's seam.
pub fn contour_steep(originals: &[i32], currents: &[i32], touched: &[u8]) -> bool
    requires currents_len { (length currents.now ≡ length originals.now) × (length touched.now ≡ length originals.now) }
    requires coordinates { Coordinates originals.now × Coordinates currents.now }
    ensures { Tells (steep_at originals.now currents.now touched.now (whole touched.now)) 0 (length touched.now) result }
{
    let n = touched.len();
    let first = next_touched(touched, 0);
    if n <= first {
        return false;
    }
    let mut last = first;
    let mut next = next_touched(touched, last + 1);
    // a while: each step goes on to the next touched point
    while next < n {
        if stretch_steep(originals, currents, last + 1, next, last, next) {
            return true;
        }
        last = next;
        next = next_touched(touched, last + 1);
    }
    if stretch_steep(originals, currents, last + 1, n, last, first) {
        return true;
    }
    stretch_steep(originals, currents, 0, first, last, first)
}
