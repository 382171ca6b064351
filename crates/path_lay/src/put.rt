// One step in lent lists.
ghost use Rattle.std.specs.Prelude.{◌≡◌, ◌+◌, ◌*◌, ◌<◌, length, set};
ghost use Rattle.path_trip.specs.declared.step.PathStep.TheVariants.{Line, Curve};
ghost use Rattle.path_lay.specs.Laying.{lent, pair_at, laid, Room};

use path_places::{PixelPoint, no_place};
use path_trip::step::{PathStep, first_of, kind_of, second_of};

// The kinds of a line and of a curve.
const LINE: u8 = 2;

const CURVE: u8 = 3;

// Writes the two numbers of a place from the number `i` on.
fn put_place(places: &mut [f32], i: usize, x: f32, y: f32)
    requires { i + 1 < length places.old }
    ensures { places.new ≡ pair_at places.old i x y }
{
    places[i] = x;
    places[i + 1] = y;
}

// Writes a step of this kind, with these places. They are handed on by their numbers: as a struct each is packed into a word, and taken apart again.
fn put_step(
    kinds: &mut [u8],
    places: &mut [f32],
    count: usize,
    kind: u8,
    x: f32,
    y: f32,
    u: f32,
    v: f32,
)
    requires { Room (lent kinds.old places.old count) 1 }
    ensures { (kinds.new ≡ set kinds.old count kind)
        × (places.new ≡ pair_at (pair_at places.old (4 * count) x y) (4 * count + 2) u v) }
{
    kinds[count] = kind;
    put_place(places, 4 * count, x, y);
    put_place(places, 4 * count + 2, u, v);
}

// Writes a line behind `count` other steps.
pub fn lay_line(kinds: &mut [u8], places: &mut [f32], count: usize, p: PixelPoint)
    requires { Room (lent kinds.old places.old count) 1 }
    ensures { lent kinds.new places.new (count + 1) ≡ laid (lent kinds.old places.old count) (Line p) }
{
    let none = no_place();
    put_step(kinds, places, count, LINE, p.x, p.y, none.x, none.y);
}

// Writes a curve behind `count` other steps.
pub fn lay_curve(kinds: &mut [u8], places: &mut [f32], count: usize, p: PixelPoint, q: PixelPoint)
    requires { Room (lent kinds.old places.old count) 1 }
    ensures { lent kinds.new places.new (count + 1) ≡ laid (lent kinds.old places.old count) (Curve p q) }
{
    put_step(kinds, places, count, CURVE, p.x, p.y, q.x, q.y);
}

// Writes a step behind `count` others.
pub fn lay_step(kinds: &mut [u8], places: &mut [f32], count: usize, step: PathStep) -> usize
    requires { Room (lent kinds.old places.old count) 1 }
    ensures { lent kinds.new places.new result ≡ laid (lent kinds.old places.old count) step }
{
    let kind = kind_of(step);
    let p = first_of(step);
    let q = second_of(step);
    put_step(kinds, places, count, kind, p.x, p.y, q.x, q.y);
    count + 1
}
