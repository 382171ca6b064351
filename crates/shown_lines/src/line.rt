// What one line and one curve of an outline wind in a row of pixels.
ghost use Rattle.std.specs.Prelude.{◌≡◌, true, [], ◌∷◌, ◌+◌, ◌*◌, ◌<◌};
ghost use Rattle.shown_rows.specs.Chains.{place_at};
ghost use Rattle.shown_rows.specs.Crossing.{most_place};
ghost use Rattle.shown.specs.Shown.{side};
ghost use Rattle.shown_lines.specs.Lines.{most_halves, Near, placed, straight, place_on, curve_sides, OneSide, Stays, Wound};

use super::place::{Halves, place_at};
use shown_rows::changes::cross_line;

// Adds the line from (px, py) to (qx, qy): 1 where it goes up over the height y, and 65,535, which is 1 less, where it goes down over it.
fn cross_side(changes: &mut [u16], left: u32, px: u32, py: u32, qx: u32, qy: u32, y: u32)
    requires { (px < most_place) × (py < most_place) × (qx < most_place) × (qy < most_place) }
    ensures { Wound (side (placed px py) (placed qx qy) ∷ []) left y changes.old changes.new }
{
    if py <= y {
        if y < qy {
            cross_line(changes, left, px, py, qx, qy, y, 1);
            return;
        }
        return;
    }
    if qy <= y {
        cross_line(changes, left, qx, qy, px, py, y, 65535);
    }
}

// Adds the line from p to q.
pub fn cross_straight(changes: &mut [u16], left: u32, p: Halves, q: Halves, y: u32)
    requires { Near p × Near q }
    ensures { Wound (straight p q ∷ []) left y changes.old changes.new }
{
    cross_side(changes, left, 256 * p.x, 256 * p.y, 256 * q.x, 256 * q.y, y);
}

// Whether three heights are all above y, or none is.
fn one_side(p: u32, c: u32, q: u32, y: u32) -> bool
    requires { (p < most_halves) × (c < most_halves) × (q < most_halves) }
    ensures { result ≡ true → OneSide p c q y }
{
    if y < 256 * p {
        if y < 256 * c {
            return y < 256 * q;
        }
        return false;
    }
    if y < 256 * c {
        return false;
    }
    256 * q <= y
}

// Whether a line from the height a to the height b does not pass y.
fn stays(a: u32, b: u32, y: u32) -> bool
    ensures { result ≡ true → Stays a b y }
{
    if a <= y {
        return b <= y;
    }
    y < b
}

// Adds the line of a curve from k / 16 to the next sixteenth, of which the heights are known; its ends are worked out only where it passes y.
fn cross_part(
    changes: &mut [u16],
    left: u32,
    p: Halves,
    c: Halves,
    q: Halves,
    k: u32,
    low: u32,
    high: u32,
    y: u32,
)
    requires near { Near p × Near c × Near q }
    requires k_bound { (k < 16) × (low ≡ place_at p.y c.y q.y k) × (high ≡ place_at p.y c.y q.y (k + 1)) × (low < most_place) × (high < most_place) }
    ensures { Wound (side (place_on p c q k) (place_on p c q (k + 1)) ∷ []) left y changes.old changes.new }
{
    if stays(low, high, y) {
        return;
    }
    let from = place_at(p.x, c.x, q.x, k);
    let to = place_at(p.x, c.x, q.x, k + 1);
    cross_side(changes, left, from, low, to, high, y);
}

// Adds the sixteen lines of the curve from p by c to q. Where its three points are on one side of the row it does not cross it.
pub fn cross_curve(changes: &mut [u16], left: u32, p: Halves, c: Halves, q: Halves, y: u32)
    requires { Near p × Near c × Near q }
    ensures { Wound (curve_sides p c q 0 16) left y changes.old changes.new }
{
    if one_side(p.y, c.y, q.y, y) {
        return;
    }
    let mut low = place_at(p.y, c.y, q.y, 0);
    for k in 0..16 {
        let high = place_at(p.y, c.y, q.y, k + 1);
        cross_part(changes, left, p, c, q, k, low, high, y);
        low = high;
    }
}
