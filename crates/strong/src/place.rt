// Where a point comes to by one edge or by two, from their numbers.
ghost use Rattle.std.specs.Prelude.{◌≡◌, ◌<ℤ◌};
ghost use Rattle.signed.specs.Range.{Between};
ghost use Rattle.axis.specs.Handed.{Short};
ghost use Rattle.axis.specs.Limits.{most_units, most_pos};
ghost use Rattle.weak_contour.specs.Steps.{Coordinate};
ghost use Rattle.strong.specs.Strong.{moved_with, between, current_after, mark_after, is_placed};

use axis::accept::is_inside;
use axis::limits::{LEAST_POS, MOST_POS};
use fixed::point::{fixed_div, fixed_mul};

// What becomes of a point: it stays, it comes to a position, or the call is refused for it.
#[derive(Clone, Copy)]
pub enum Place {
    Stays,
    At(i32),
    Beyond,
}

// Whether a call is not refused for it.
pub fn is_placed(place: Place) -> bool
    ensures { result ≡ is_placed place }
{
    match place {
        Place::Stays => true,
        Place::At(_) => true,
        Place::Beyond => false,
    }
}

// The current of a point by its place.
pub fn current_after(current: i32, place: Place) -> i32
    ensures { result ≡ current_after current place }
{
    match place {
        Place::Stays => current,
        Place::At(z) => z,
        Place::Beyond => current,
    }
}

// Its touch mark.
pub fn mark_after(mark: u8, place: Place) -> u8
    ensures { result ≡ mark_after mark place }
{
    match place {
        Place::Stays => mark,
        Place::At(_) => 1,
        Place::Beyond => mark,
    }
}

// Where an original comes to that moves with an edge.
pub fn moved_with(v: i32, opos: i32, pos: i32) -> Place
    requires { Coordinate v × Between most_units most_units opos × Between most_pos most_pos pos }
    ensures { result ≡ moved_with v opos pos }
{
    let z = pos + (v - opos);
    if is_inside(z, LEAST_POS, MOST_POS) {
        return Place::At(z);
    }
    Place::Beyond
}

// Where a font position comes to between two edges: from the first's position on, by the fixed quotient of their positions by their font positions.
pub fn between(u: i32, f1: i32, p1: i32, f2: i32, p2: i32) -> Place
    requires f1_lt_u { (f1 <ℤ u) × (u <ℤ f2) × Short f1 × Short f2 }
    requires between { Between most_pos most_pos p1 × Between most_pos most_pos p2 }
    ensures { result ≡ between u f1 p1 f2 p2 }
{
    let quotient = fixed_div(p2 - p1, f2 - f1);
    let Some(scale) = quotient else {
        return Place::Beyond;
    };
    Place::At(p1 + fixed_mul(u - f1, scale))
}
