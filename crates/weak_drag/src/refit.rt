// The points that depend on the touched point p, fitted again: those of its contour's two arcs that end at it.
ghost use Rattle.std.specs.Prelude.{◌≡◌, true, ◌≤◌, ◌<◌, length, get_or};
ghost use Rattle.signed.specs.Equality.{eq_z};
ghost use Rattle.weak_contour.specs.Contour.{at, refs, between_at};
ghost use Rattle.weak_contour.specs.Steps.{Coordinate, Coordinates};
ghost use Rattle.weak.specs.Steps.{Accepted, GentleAll};
ghost use Rattle.weak_known.specs.Walks.{GentleOn};
ghost use Rattle.weak_drag.specs.Drag.{is_there};
ghost use Rattle.weak_drag.specs.Steps.{GentleArc, ArcWrote, Refitted, DragDone};

use super::around::{next_around, prior_around};
use weak_contour::iup::iup_interpolate;

// Whether a point's current is its original.
fn is_still(current: i32, original: i32) -> bool
    ensures { result ≡ eq_z current original }
{
    current == original
}

// Interpolates the points of the arc from a to b by these two as references.
fn refit_arc(originals: &[i32], currents: &mut [i32], s: usize, e: usize, a: usize, b: usize)
    requires currents_len { (length currents.old ≡ length originals.now) × (e ≤ length originals.now) }
    requires s_le_a { (s ≤ a) × (a < e) × (s ≤ b) × (b < e) }
    requires coordinates { Coordinates originals.now × Coordinate (at currents.old a) × Coordinate (at currents.old b) × GentleArc originals.now currents.old s e a b }
    ensures { ArcWrote (between_at originals.now currents.old (refs a b)) s e a b currents.old currents.new }
{
    if a < b {
        iup_interpolate(originals, currents, a + 1, b, a, b);
        return;
    }
    iup_interpolate(originals, currents, a + 1, e, a, b);
    iup_interpolate(originals, currents, s, b, a, b);
}

// Fits again what depends on p, a touched point of the contour from s up to e. Where it is the only one, both its arcs are the rest of the contour, which stays where p is on its
// original.
fn refit_contour(
    originals: &[i32],
    currents: &mut [i32],
    touched: &[u8],
    s: usize,
    e: usize,
    p: usize,
)
    requires currents_len { (length currents.old ≡ length originals.now) × (length touched.now ≡ length originals.now) }
    requires s_le_p { (s ≤ p) × (p < e) × (e ≤ length originals.now) × (0 < get_or touched.now p 0) }
    requires coordinates { Coordinates originals.now × Coordinates currents.old × GentleOn originals.now currents.old touched.now s e }
    ensures { Refitted originals.now currents.old touched.now s e p currents.new }
{
    let next = next_around(touched, s, e, p);
    if next == p {
        if is_still(currents[p], originals[p]) {
            return;
        }
        refit_arc(originals, currents, s, e, p, p);
        return;
    }
    let prior = prior_around(touched, s, e, p);
    refit_arc(originals, currents, s, e, p, next);
    refit_arc(originals, currents, s, e, prior, p);
}

// Fits again what depends on p, on the contour that it is on, if it is on one.
pub fn refit(originals: &[i32], currents: &mut [i32], touched: &[u8], ends: &[u16], p: usize)
    requires accepted { Accepted originals.now currents.old touched.now ends.now }
    requires gentle_all { GentleAll originals.now currents.old touched.now ends.now }
    requires p_value { is_there touched.now p ≡ true }
    ensures { DragDone originals.now currents.old touched.now ends.now p currents.new }
{
    let mut start: usize = 0;
    for x in ends {
        let end = usize::from(*x) + 1;
        if p < end {
            refit_contour(originals, currents, touched, start, end, p);
            return;
        }
        start = end;
    }
}
