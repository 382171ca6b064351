// The points of a contour with two or more touched points, aligned by the lists: from stretch to stretch, and no walk to find touched points.
ghost use Rattle.std.specs.Prelude.{◌≡◌, cond, ◌≤◌, ◌<◌, ltb, length};
ghost use Rattle.weak_contour.specs.Limits.{most_points};
ghost use Rattle.weak_contour.specs.Contour.{weak_at};
ghost use Rattle.weak_contour.specs.Steps.{Coordinates, Wrote};
ghost use Rattle.weak_known.specs.Walks.{contour, Says, TwoOn, CoordinatesOn, GentleOn};

use super::number::TOUCHED_INDEX;
use weak_contour::iup::iup_interpolate;

// Where the stretch of the point i ends, whose reference behind is q: there, or at the contour's end e.
pub fn stretch_end(i: usize, q: usize, e: usize) -> usize
    ensures { result ≡ cond (ltb i q) q e }
{
    if i < q {
        return q;
    }
    e
}

// Aligns the points from s up to e. Behind a stretch stands a touched point or the end, which is passed with it.
pub fn align_round(
    originals: &[i32],
    currents: &mut [i32],
    touched: &[u8],
    before: &[u16],
    behind: &[u16],
    s: usize,
    e: usize,
)
    requires currents_len { (length currents.old ≡ length originals.now) × (length touched.now ≡ length originals.now) × (length before.now ≡ length originals.now) × (length behind.now ≡ length originals.now) }
    requires s_le_e { (s ≤ e) × (e ≤ length originals.now) × (e ≤ most_points) }
    requires coordinates { Coordinates originals.now × CoordinatesOn currents.old s e }
    requires gentle_on { GentleOn originals.now currents.old touched.now s e }
    requires two_on { TwoOn touched.now s e × Says touched.now before.now behind.now s e }
    ensures { Wrote (weak_at originals.now currents.old touched.now (contour s e)) s e currents.old currents.new }
{
    let mut i = s;
    // a while: each step goes on behind a stretch
    while i < e {
        let p = usize::from(before[i]);
        if p == TOUCHED_INDEX {
            i += 1;
            continue;
        }
        let q = usize::from(behind[i]);
        let to = stretch_end(i, q, e);
        iup_interpolate(originals, currents, i, to, p, q);
        i = to + 1;
    }
}
