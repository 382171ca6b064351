// The steps of one contour.
ghost use Rattle.std.specs.Prelude.{◌≡◌, ◌+◌, ◌-◌, ◌<◌, drop};
ghost use Rattle.path_trip.specs.Path.{points, round_of, curve_end, steps_of};
ghost use Rattle.path_trip.specs.Trips.{Admitted, Within, around, Walk};
ghost use Rattle.path_walk.specs.Steps.{seek, count_of, step_of, end_of, EndInside};

use path_places::PixelPoint;
use path_trip::place::{middle_of, place_of};
use path_trip::step::PathStep;
use path_trip::trip::{Trip, around_at, is_on, trip_of};

// How many steps a point gives.
fn count_of(on: bool, joined: bool) -> usize
    ensures { result ≡ count_of on joined }
{
    if on {
        if joined {
            return 1;
        }
        return 0;
    }
    1
}

// Where a curve ends: at its contour's start, at a point, or halfway between two.
#[derive(Clone, Copy)]
pub enum End {
    Start,
    Point(usize),
    Between(usize, usize),
}

// Where the curve by the point at place `j` of a walk ends: of `count` points, from `from` on.
pub fn end_of(
    xs: &[i32],
    ys: &[i32],
    marks: &[u8],
    a: usize,
    e: usize,
    from: usize,
    count: usize,
    j: usize,
) -> End
    requires admitted { Admitted (points xs.now ys.now marks.now) }
    requires within { Within (points xs.now ys.now marks.now) a e }
    requires walk { Walk (round_of (points xs.now ys.now marks.now) a (e - 1)).walk a e from count }
    requires j_lt_count { j < count }
    ensures { (result ≡ end_of (points xs.now ys.now marks.now) (around a e (from + j))
        (drop (j + 1) (round_of (points xs.now ys.now marks.now) a (e - 1)).walk)) × EndInside e result }
{
    if count - j == 1 {
        return End::Start;
    }
    let next = around_at(a, e, from + j + 1);
    if is_on(marks[next]) {
        return End::Point(next);
    }
    let i = around_at(a, e, from + j);
    End::Between(i, next)
}

// Where the curve by the point at place `j` of a trip ends.
fn curve_end(
    xs: &[i32],
    ys: &[i32],
    marks: &[u8],
    a: usize,
    e: usize,
    trip: Trip,
    j: usize,
) -> PixelPoint
    requires admitted { Admitted (points xs.now ys.now marks.now) }
    requires within { Within (points xs.now ys.now marks.now) a e }
    requires walk { Walk (round_of (points xs.now ys.now marks.now) a (e - 1)).walk a e trip.from trip.count }
    requires j_lt_count { j < trip.count }
    ensures { result ≡ curve_end (points xs.now ys.now marks.now) trip.start (around a e (trip.from + j))
        (drop (j + 1) (round_of (points xs.now ys.now marks.now) a (e - 1)).walk) }
{
    let end = end_of(xs, ys, marks, a, e, trip.from, trip.count, j);
    match end {
        End::Start => trip.start,
        End::Point(i) => place_of(xs, ys, marks, i),
        End::Between(i, k) => middle_of(xs, ys, marks, i, k),
    }
}

// The step of the point at place `j` of a trip, which gives one.
fn step_here(
    xs: &[i32],
    ys: &[i32],
    marks: &[u8],
    a: usize,
    e: usize,
    trip: Trip,
    j: usize,
) -> PathStep
    requires admitted { Admitted (points xs.now ys.now marks.now) }
    requires within { Within (points xs.now ys.now marks.now) a e }
    requires walk { Walk (round_of (points xs.now ys.now marks.now) a (e - 1)).walk a e trip.from trip.count }
    requires j_lt_count { j < trip.count }
    ensures { result ≡ step_of (points xs.now ys.now marks.now) trip.start (around a e (trip.from + j))
        (drop (j + 1) (round_of (points xs.now ys.now marks.now) a (e - 1)).walk) }
{
    let i = around_at(a, e, trip.from + j);
    let p = place_of(xs, ys, marks, i);
    if is_on(marks[i]) {
        return PathStep::Line(p);
    }
    let q = curve_end(xs, ys, marks, a, e, trip, j);
    PathStep::Curve(p, q)
}

// Step k of the contour from `a` up to `e`, or how far k is behind its steps.
pub fn contour_step(
    xs: &[i32],
    ys: &[i32],
    marks: &[u8],
    a: usize,
    e: usize,
    k: usize,
) -> Result<PathStep, usize>
    requires admitted { Admitted (points xs.now ys.now marks.now) }
    requires within { Within (points xs.now ys.now marks.now) a e }
    ensures { result ≡ seek (steps_of (points xs.now ys.now marks.now) (round_of (points xs.now ys.now marks.now) a (e - 1))) k }
{
    let trip = trip_of(xs, ys, marks, a, e);
    if k == 0 {
        let start = trip.start;
        return Ok(PathStep::Move(start));
    }
    let mut left = k - 1;
    let mut joined = true;
    for j in 0..trip.count {
        let i = around_at(a, e, trip.from + j);
        let on = is_on(marks[i]);
        let count = count_of(on, joined);
        if left < count {
            return Ok(step_here(xs, ys, marks, a, e, trip, j));
        }
        left -= count;
        joined = on;
    }
    if left == 0 {
        return Ok(PathStep::Close);
    }
    Err(left - 1)
}
