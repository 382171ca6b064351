// Where a contour starts, and the points that it then walks by.
ghost use Rattle.std.specs.Prelude.{◌≡◌, ◌+◌, ◌-◌, ◌<◌, ltb};
ghost use Rattle.path_trip.specs.Path.{points, round_of};
ghost use Rattle.path_trip.specs.Trips.{Admitted, Within, around, Walk};

use super::place::spot_place;
use super::tour::tour_of;
use path_places::PixelPoint;

// The start of a contour, and the points that it then walks by: `count` of them, from `from` on.
#[derive(Clone, Copy)]
pub struct Trip {
    pub start: PixelPoint,
    pub from: usize,
    pub count: usize,
}

// Whether a mark means on the curve.
pub fn is_on(mark: u8) -> bool
    ensures { result ≡ ltb 0 mark }
{
    0 < mark
}

// The start and the walk of the contour from `a` up to `e`.
pub fn trip_of(xs: &[i32], ys: &[i32], marks: &[u8], a: usize, e: usize) -> Trip
    requires admitted { Admitted (points xs.now ys.now marks.now) }
    requires within { Within (points xs.now ys.now marks.now) a e }
    ensures { (result.start ≡ (round_of (points xs.now ys.now marks.now) a (e - 1)).start)
        × Walk (round_of (points xs.now ys.now marks.now) a (e - 1)).walk a e result.from result.count }
{
    let tour = tour_of(xs, ys, marks, a, e);
    let spot = tour.start;
    let start = spot_place(xs, ys, marks, spot);
    Trip {
        start,
        from: tour.from,
        count: tour.count,
    }
}

// The index `i`, come around from `e` to `a`.
pub fn around_at(a: usize, e: usize, i: usize) -> usize
    requires { (a < e) × (i < e + (e - a)) }
    ensures { (result ≡ around a e i) × (result < e) }
{
    if i < e { i } else { i - e + a }
}
