// The steps of an outline in lent lists.
ghost use Rattle.std.specs.Prelude.{◌≡◌, true, ◌+◌, ◌-◌, ◌<◌, length, drop};
ghost use Rattle.weak.specs.Weak.{ends_hold};
ghost use Rattle.path_trip.specs.Path.{points, round_of, walked, steps_of, path};
ghost use Rattle.path_trip.specs.Trips.{Admitted, Within, Walk};
ghost use Rattle.path_lay.specs.Laying.{lent, lay, Room, Stepped};

use super::put::{lay_curve, lay_line, lay_step};
use path_trip::place::{middle_of, place_of};
use path_trip::step::PathStep;
use path_trip::trip::{Trip, around_at, is_on, trip_of};
use path_walk::walk::{End, end_of};

// Writes the step of the point at place `j` of a trip behind `count` others, and tells the place of the next step's point: an on-curve point that ends a curve gives none.
fn lay_point(
    xs: &[i32],
    ys: &[i32],
    marks: &[u8],
    a: usize,
    e: usize,
    trip: Trip,
    j: usize,
    kinds: &mut [u8],
    places: &mut [f32],
    count: usize,
) -> usize
    requires admitted { Admitted (points xs.now ys.now marks.now) }
    requires within { Within (points xs.now ys.now marks.now) a e }
    requires walk { Walk (round_of (points xs.now ys.now marks.now) a (e - 1)).walk a e trip.from trip.count }
    requires j_lt_count { (j < trip.count) × Room (lent kinds.old places.old count) 1 }
    ensures { Stepped (points xs.now ys.now marks.now) trip.start (round_of (points xs.now ys.now marks.now) a (e - 1)).walk
        j result (lent kinds.old places.old count) (lent kinds.new places.new (count + 1)) }
{
    let i = around_at(a, e, trip.from + j);
    let p = place_of(xs, ys, marks, i);
    if is_on(marks[i]) {
        lay_line(kinds, places, count, p);
        return j + 1;
    }
    let end = end_of(xs, ys, marks, a, e, trip.from, trip.count, j);
    match end {
        End::Start => {
            let start = trip.start;
            lay_curve(kinds, places, count, p, start);
            j + 1
        }
        End::Point(k) => {
            lay_curve(kinds, places, count, p, place_of(xs, ys, marks, k));
            j + 2
        }
        End::Between(m, k) => {
            lay_curve(kinds, places, count, p, middle_of(xs, ys, marks, m, k));
            j + 1
        }
    }
}

// Writes the steps of a trip, behind its move, behind `count` others.
fn lay_walk(
    xs: &[i32],
    ys: &[i32],
    marks: &[u8],
    a: usize,
    e: usize,
    trip: Trip,
    kinds: &mut [u8],
    places: &mut [f32],
    count: usize,
) -> usize
    requires admitted { Admitted (points xs.now ys.now marks.now) }
    requires within { Within (points xs.now ys.now marks.now) a e }
    requires walk { Walk (round_of (points xs.now ys.now marks.now) a (e - 1)).walk a e trip.from trip.count }
    requires room { Room (lent kinds.old places.old count) (length (walked (points xs.now ys.now marks.now) trip.start true (drop 0 (round_of (points xs.now ys.now marks.now) a (e - 1)).walk))) }
    ensures { lent kinds.new places.new result ≡ lay (lent kinds.old places.old count)
        (walked (points xs.now ys.now marks.now) trip.start true (drop 0 (round_of (points xs.now ys.now marks.now) a (e - 1)).walk)) }
{
    let mut n = count;
    let mut j: usize = 0;
    // a while: a step walks by one point, or by two where a curve ends at an on-curve point
    while j < trip.count {
        j = lay_point(xs, ys, marks, a, e, trip, j, kinds, places, n);
        n += 1;
    }
    lay_step(kinds, places, n, PathStep::Close)
}

// Writes the steps of the contour from `a` up to `e` behind `count` others.
fn lay_contour(
    xs: &[i32],
    ys: &[i32],
    marks: &[u8],
    a: usize,
    e: usize,
    kinds: &mut [u8],
    places: &mut [f32],
    count: usize,
) -> usize
    requires admitted { Admitted (points xs.now ys.now marks.now) }
    requires within { Within (points xs.now ys.now marks.now) a e }
    requires room { Room (lent kinds.old places.old count) (length (steps_of (points xs.now ys.now marks.now) (round_of (points xs.now ys.now marks.now) a (e - 1)))) }
    ensures { lent kinds.new places.new result ≡ lay (lent kinds.old places.old count)
        (steps_of (points xs.now ys.now marks.now) (round_of (points xs.now ys.now marks.now) a (e - 1))) }
{
    let trip = trip_of(xs, ys, marks, a, e);
    let start = trip.start;
    let n = lay_step(kinds, places, count, PathStep::Move(start));
    lay_walk(xs, ys, marks, a, e, trip, kinds, places, n)
}

// Writes the path of an accepted outline, and returns how many steps it has.
pub fn lay_path(
    xs: &[i32],
    ys: &[i32],
    marks: &[u8],
    ends: &[u16],
    kinds: &mut [u8],
    places: &mut [f32],
) -> usize
    requires admitted { Admitted (points xs.now ys.now marks.now) }
    requires ends_value { ends_hold 0 (length xs.now) ends.now ≡ true }
    requires room { Room (lent kinds.old places.old 0) (length (path (points xs.now ys.now marks.now) ends.now)) }
    ensures { lent kinds.new places.new result
        ≡ lay (lent kinds.old places.old 0) (path (points xs.now ys.now marks.now) ends.now) }
{
    let mut n: usize = 0;
    let mut a: usize = 0;
    for end in ends {
        let e = usize::from(*end) + 1;
        n = lay_contour(xs, ys, marks, a, e, kinds, places, n);
        a = e;
    }
    n
}
