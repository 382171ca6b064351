// Places in the field, in halves of a unit, from its left lower corner on.
ghost use Rattle.std.specs.Prelude.{◌≡◌, ◌*◌, ◌≤◌, ◌<◌, length, nat_abs, pos, ◌+ℤ◌, ◌*ℤ◌};
ghost use Rattle.weak_contour.specs.Contour.{at};
ghost use Rattle.weak_contour.specs.Limits.{most_coordinate};
ghost use Rattle.path_trip.specs.Path.{points};
ghost use Rattle.path_trip.specs.Trips.{Inside};
ghost use Rattle.path_trip.specs.declared.tour.Spot.TheVariants.{Point, Between};
ghost use Rattle.path_walk.specs.Steps.{EndInside};
ghost use Rattle.shown_rows.specs.Chains.{place_at};
ghost use Rattle.shown_rows.specs.Crossing.{most_place};
ghost use Rattle.shown_lines.specs.Lines.{field_half, most_magnify, most_halves, Reach, InField, Near, halves_at, end_at};

use path_trip::tour::Spot;
use path_walk::walk::End;

// A place of a path: twice its coordinates.
#[derive(Clone, Copy)]
pub struct Halves {
    pub x: u32,
    pub y: u32,
}

// Twice the coordinate halfway between two coordinates, magnified.
fn magnified(magnify: u32, x: i32, u: i32) -> u32
    requires { (0 < magnify) × (magnify ≤ most_magnify) × (magnify * nat_abs x ≤ most_coordinate) × (magnify * nat_abs u ≤ most_coordinate) }
    ensures { (result ≡ nat_abs (pos magnify *ℤ (x +ℤ u) +ℤ pos (2 * field_half))) × (result < most_halves) }
{
    let m = magnify as i32;
    (m * (x + u) + 131072) as u32
}

// That of the points `i` and `j`.
fn doubled_at(list: &[i32], magnify: u32, i: usize, j: usize) -> u32
    requires magnify_nonzero { (0 < magnify) × (magnify ≤ most_magnify) × Reach magnify list.now }
    requires i_in_bounds { (i < length list.now) × (j < length list.now) }
    ensures { (result ≡ nat_abs (pos magnify *ℤ (at list.now i +ℤ at list.now j) +ℤ pos (2 * field_half))) × (result < most_halves) }
{
    let x = list[i];
    let u = list[j];
    magnified(magnify, x, u)
}

// The place halfway between the points `i` and `j`: a point is halfway between itself and itself.
fn place_between(xs: &[i32], ys: &[i32], marks: &[u8], magnify: u32, i: usize, j: usize) -> Halves
    requires in_field { InField (points xs.now ys.now marks.now) magnify }
    requires i_in_bounds { (i < length xs.now) × (j < length xs.now) × (length ys.now ≡ length xs.now) }
    ensures { (result ≡ halves_at (points xs.now ys.now marks.now) magnify (Between i j)) × Near result }
{
    let x = doubled_at(xs, magnify, i, j);
    let y = doubled_at(ys, magnify, i, j);
    Halves { x, y }
}

// The place of the point `i`.
pub fn point_place(xs: &[i32], ys: &[i32], marks: &[u8], magnify: u32, i: usize) -> Halves
    requires in_field { InField (points xs.now ys.now marks.now) magnify }
    requires i_in_bounds { (i < length xs.now) × (length ys.now ≡ length xs.now) }
    ensures { (result ≡ halves_at (points xs.now ys.now marks.now) magnify (Point i)) × Near result }
{
    place_between(xs, ys, marks, magnify, i, i)
}

// The place that a spot names.
pub fn spot_halves(xs: &[i32], ys: &[i32], marks: &[u8], magnify: u32, spot: Spot) -> Halves
    requires in_field { InField (points xs.now ys.now marks.now) magnify }
    requires inside { Inside (length xs.now) spot × (length ys.now ≡ length xs.now) }
    ensures { (result ≡ halves_at (points xs.now ys.now marks.now) magnify spot) × Near result }
{
    match spot {
        Spot::Point(i) => point_place(xs, ys, marks, magnify, i),
        Spot::Between(i, j) => place_between(xs, ys, marks, magnify, i, j),
    }
}

// The place of a curve's end, of a contour that starts at `start`.
pub fn end_halves(
    xs: &[i32],
    ys: &[i32],
    marks: &[u8],
    magnify: u32,
    start: Halves,
    end: End,
) -> Halves
    requires in_field { InField (points xs.now ys.now marks.now) magnify }
    requires end_inside { EndInside (length xs.now) end × (length ys.now ≡ length xs.now) × Near start }
    ensures { (result ≡ end_at (points xs.now ys.now marks.now) magnify start end) × Near result }
{
    match end {
        End::Start => start,
        End::Point(i) => point_place(xs, ys, marks, magnify, i),
        End::Between(i, j) => place_between(xs, ys, marks, magnify, i, j),
    }
}

// 256 times the coordinate at k / 16 of a curve from p by c to q, in halves: a number of 512ths.
pub fn place_at(p: u32, c: u32, q: u32, k: u32) -> u32
    requires { (p < most_halves) × (c < most_halves) × (q < most_halves) × (k ≤ 16) }
    ensures { (result ≡ place_at p c q k) × (result < most_place) }
{
    let u = 16 - k;
    u * u * p + 2 * u * k * c + k * k * q
}
