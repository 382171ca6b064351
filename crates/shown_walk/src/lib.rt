// What the contours of an outline wind in one row of pixels, with no line stored.
#![tactic(auto)]

ghost use Rattle.std.specs.Prelude.{◌≡◌, true, ◌-◌, length};
ghost use Rattle.weak.specs.Weak.{ends_hold};
ghost use Rattle.path_trip.specs.Path.{points};
ghost use Rattle.path_trip.specs.Legs.{tour_of};
ghost use Rattle.path_trip.specs.Trips.{Admitted, Within};
ghost use Rattle.shown.specs.Shown.{contour_lines, lines_of};
ghost use Rattle.shown_lines.specs.Lines.{field_half, InField, Wound};

use path_trip::tour::tour_of;
use path_trip::trip::{around_at, is_on};
use path_walk::walk::end_of;
use shown_lines::line::{cross_curve, cross_straight};
use shown_lines::place::{end_halves, point_place, spot_halves};

// Adds the lines of the contour from `a` up to `e`. An on-curve point behind a curve gives a line of no height, which crosses nothing.
fn cross_contour(
    changes: &mut [u16],
    left: u32,
    xs: &[i32],
    ys: &[i32],
    marks: &[u8],
    a: usize,
    e: usize,
    magnify: u32,
    y: u32,
)
    requires admitted { Admitted (points xs.now ys.now marks.now) }
    requires within { Within (points xs.now ys.now marks.now) a e }
    requires in_field { InField (points xs.now ys.now marks.now) magnify }
    ensures { Wound (contour_lines field_half magnify (points xs.now ys.now marks.now)
        (tour_of (points xs.now ys.now marks.now) a (e - 1))) left y changes.old changes.new }
{
    let tour = tour_of(xs, ys, marks, a, e);
    let spot = tour.start;
    let start = spot_halves(xs, ys, marks, magnify, spot);
    let mut p = start;
    for j in 0..tour.count {
        let i = around_at(a, e, tour.from + j);
        let c = point_place(xs, ys, marks, magnify, i);
        if is_on(marks[i]) {
            cross_straight(changes, left, p, c, y);
            p = c;
            continue;
        }
        let end = end_of(xs, ys, marks, a, e, tour.from, tour.count, j);
        let q = end_halves(xs, ys, marks, magnify, start, end);
        cross_curve(changes, left, p, c, q, y);
        p = q;
    }
    cross_straight(changes, left, p, start, y);
}

// Adds the lines of an accepted outline, magnified, in the row at the height y.
pub fn cross_outline(
    changes: &mut [u16],
    left: u32,
    xs: &[i32],
    ys: &[i32],
    marks: &[u8],
    ends: &[u16],
    magnify: u32,
    y: u32,
)
    requires admitted { Admitted (points xs.now ys.now marks.now) }
    requires ends_value { ends_hold 0 (length xs.now) ends.now ≡ true }
    requires in_field { InField (points xs.now ys.now marks.now) magnify }
    ensures { Wound (lines_of field_half magnify (points xs.now ys.now marks.now) 0 ends.now) left y
        changes.old changes.new }
{
    let mut a: usize = 0;
    for end in ends {
        let e = usize::from(*end) + 1;
        cross_contour(changes, left, xs, ys, marks, a, e, magnify, y);
        a = e;
    }
}
