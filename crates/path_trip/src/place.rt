// Places of an outline's points.
ghost use Rattle.std.specs.Prelude.{◌≡◌, ◌<◌, length};
ghost use Rattle.path_trip.specs.Path.{points, place, middle};
ghost use Rattle.path_trip.specs.Legs.{spot_place};
ghost use Rattle.path_trip.specs.Trips.{Admitted, Inside};

use super::tour::Spot;
use path_places::{PixelPoint, halfway_point, pixel_point};

// The place of the point `i`.
pub fn place_of(xs: &[i32], ys: &[i32], marks: &[u8], i: usize) -> PixelPoint
    requires admitted { Admitted (points xs.now ys.now marks.now) }
    requires i_in_bounds { i < length xs.now }
    ensures { result ≡ place (points xs.now ys.now marks.now) i }
{
    let x = xs[i];
    let y = ys[i];
    pixel_point(x, y)
}

// The place halfway between the points `i` and `j`.
pub fn middle_of(xs: &[i32], ys: &[i32], marks: &[u8], i: usize, j: usize) -> PixelPoint
    requires admitted { Admitted (points xs.now ys.now marks.now) }
    requires i_in_bounds { (i < length xs.now) × (j < length xs.now) }
    ensures { result ≡ middle (points xs.now ys.now marks.now) i j }
{
    let x = xs[i];
    let y = ys[i];
    let u = xs[j];
    let v = ys[j];
    halfway_point(x, y, u, v)
}

// The place that a spot names.
pub fn spot_place(xs: &[i32], ys: &[i32], marks: &[u8], spot: Spot) -> PixelPoint
    requires admitted { Admitted (points xs.now ys.now marks.now) }
    requires inside { Inside (length xs.now) spot }
    ensures { result ≡ spot_place (points xs.now ys.now marks.now) spot }
{
    match spot {
        Spot::Point(i) => place_of(xs, ys, marks, i),
        Spot::Between(i, j) => middle_of(xs, ys, marks, i, j),
    }
}
