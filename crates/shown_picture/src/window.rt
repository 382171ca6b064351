// The columns and rows of the field that an outline can blacken.
ghost use Rattle.std.specs.Prelude.{◌≡◌, true, ◌≤◌, ◌<◌, length};
ghost use Rattle.weak.specs.Weak.{ends_hold};
ghost use Rattle.path_trip.specs.Path.{points};
ghost use Rattle.path_trip.specs.Trips.{Admitted};
ghost use Rattle.shown_lines.specs.Lines.{most_halves, InField};
ghost use Rattle.shown_picture.specs.Window.{cell_of, Lesser, Greater, Spread, picture, Bounds};

use shown_lines::place::point_place;

// These columns from `left` on, and rows from `low` on.
#[derive(Clone, Copy)]
pub struct Window {
    pub left: u32,
    pub columns: usize,
    pub low: u32,
    pub rows: u32,
}

// The places of a least and of a largest number of a list.
#[derive(Clone, Copy)]
pub struct Extremes {
    pub least: usize,
    pub largest: usize,
}

// The place of the smaller of two numbers of a list.
fn lesser(list: &[i32], i: usize, j: usize) -> usize
    requires { (i < length list.now) × (j < length list.now) }
    ensures { Lesser list.now i j result }
{
    let x = list[i];
    let y = list[j];
    if y < x {
        return j;
    }
    i
}

// The place of the larger.
fn greater(list: &[i32], i: usize, j: usize) -> usize
    requires { (i < length list.now) × (j < length list.now) }
    ensures { Greater list.now i j result }
{
    let x = list[i];
    let y = list[j];
    if x < y {
        return j;
    }
    i
}

// The extremes of the first `count` numbers of a list.
fn extremes_of(list: &[i32], count: usize) -> Extremes
    requires { (0 < count) × (count ≤ length list.now) }
    ensures { Spread list.now count result.least result.largest }
{
    let mut least: usize = 0;
    let mut largest: usize = 0;
    for i in 1..count {
        least = lesser(list, least, i);
        largest = greater(list, largest, i);
    }
    Extremes { least, largest }
}

// The first column, or row, whose centre is at a coordinate of the field, in halves, or behind it.
fn cell_of(halves: u32) -> u32
    requires { halves < most_halves }
    ensures { result ≡ cell_of halves }
{
    (halves + 63) / 128
}

// The window of an accepted outline: from the first column with its centre at its leftmost point, or behind it, up to the first with its centre at its rightmost point, or behind it, and rows so too.
pub fn window_of(xs: &[i32], ys: &[i32], marks: &[u8], ends: &[u16], magnify: u32) -> Window
    requires admitted { Admitted (points xs.now ys.now marks.now) }
    requires ends_value { ends_hold 0 (length xs.now) ends.now ≡ true }
    requires in_field { InField (points xs.now ys.now marks.now) magnify }
    ensures { Bounds (picture magnify (points xs.now ys.now marks.now) ends.now) result }
{
    if ends.len() == 0 {
        return Window {
            left: 0,
            columns: 0,
            low: 0,
            rows: 0,
        };
    }
    let count = usize::from(ends[ends.len() - 1]) + 1;
    let across = extremes_of(xs, count);
    let leftmost = point_place(xs, ys, marks, magnify, across.least);
    let rightmost = point_place(xs, ys, marks, magnify, across.largest);
    let upward = extremes_of(ys, count);
    let lowest = point_place(xs, ys, marks, magnify, upward.least);
    let highest = point_place(xs, ys, marks, magnify, upward.largest);
    let left = cell_of(leftmost.x);
    let right = cell_of(rightmost.x);
    let low = cell_of(lowest.y);
    let high = cell_of(highest.y);
    Window {
        left,
        columns: (right - left) as usize,
        low,
        rows: high - low,
    }
}
