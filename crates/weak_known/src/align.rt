// Accepted outlines aligned by lists that match: a contour with two or more touched points from stretch to stretch, any other as a whole.
ghost use Rattle.std.specs.Prelude.{◌≡◌, true, ◌≤◌, length};
ghost use Rattle.weak_contour.specs.Contour.{weak_at};
ghost use Rattle.weak_contour.specs.Steps.{Coordinates, Wrote};
ghost use Rattle.weak.specs.Steps.{Accepted, GentleAll, AllDone};
ghost use Rattle.weak_known.specs.Known.{matches};
ghost use Rattle.weak_known.specs.Walks.{contour, LoneOn, CoordinatesOn};

use super::contour::show_two;
use super::round::align_round;
use super::search::first_touched;
use weak_contour::iup::iup_shift;

// Aligns the points from s up to e, of which one is touched or none: they are shifted as that one was, and no second is searched for.
fn align_lone(originals: &[i32], currents: &mut [i32], touched: &[u8], s: usize, e: usize)
    requires currents_len { (length currents.old ≡ length originals.now) × (length touched.now ≡ length originals.now) × (s ≤ e) × (e ≤ length originals.now) }
    requires coordinates { Coordinates originals.now × CoordinatesOn currents.old s e × LoneOn touched.now s e }
    ensures { Wrote (weak_at originals.now currents.old touched.now (contour s e)) s e currents.old currents.new }
{
    let p = first_touched(touched, s, e);
    if e <= p {
        return;
    }
    iup_shift(originals, currents, s, e, p);
}

// Aligns every contour.
pub fn align_listed(
    originals: &[i32],
    currents: &mut [i32],
    touched: &[u8],
    ends: &[u16],
    before: &[u16],
    behind: &[u16],
)
    requires accepted { Accepted originals.now currents.old touched.now ends.now }
    requires gentle_all { GentleAll originals.now currents.old touched.now ends.now }
    requires before_len { (length before.now ≡ length originals.now) × (length behind.now ≡ length originals.now) × (matches touched.now ends.now before.now behind.now ≡ true) }
    ensures { AllDone originals.now currents.old touched.now ends.now currents.new }
{
    let mut start: usize = 0;
    for x in ends {
        let end = usize::from(*x) + 1;
        if show_two(before, behind, start, end) {
            align_round(originals, currents, touched, before, behind, start, end);
        } else {
            align_lone(originals, currents, touched, start, end);
        }
        start = end;
    }
}
