// The path of a glyph, in pixels, and what a display shows of it.
ghost use Rattle.std.specs.Prelude.{◌+◌, ◌≤◌, length};
ghost use Rattle.label_points.specs.Room.{most_steps, most_places};

use axis::accept::least;
use khsaemudol::{khs_count_shown, khs_path};
use label_fit::glyph::{Glyph, old_xs_of, old_ys_of, stopped, xs_of, ys_of};
use label_print::print::{place, refused, show, text};
use tool_lines::limits::MOST_NUMBERS;
use tool_lists::list::nth_list;
use tool_lists::number::{read_bytes, read_indices};
use words::word::count_word;

// Steps that the longest lists of a job can make, and numbers that each has room for.
const MOST_STEPS: usize = 3 * MOST_NUMBERS;

const STEP_PLACES: usize = 4;

const MOST_PLACES: usize = STEP_PLACES * MOST_STEPS;

// Steps that are written to a line.
const COLUMNS: usize = 4;

// The kinds of a step; any other one is a contour's end.
const MOVE: u8 = 1;

const LINE: u8 = 2;

const CURVE: u8 = 3;

const CLOSE: u8 = 4;

// A number of a list, and 0 past the end.
fn float_at(places: &[f32], k: usize) -> f32 {
    if k < places.len() {
        return places[k];
    }
    0.0
}

// Writes the two numbers of a point.
fn point(places: &[f32], k: usize)
    requires { k ≤ most_places }
{
    text(b" ");
    place(float_at(places, k));
    text(b" ");
    place(float_at(places, k + 1));
}

// Begins a step behind so many of its line, on a new line where that is full, and tells how many there are with it. A contour's end stays on its line.
fn begin(kind: u8, column: usize) -> usize {
    if column == 0 {
        text(b"    ");
        return 1;
    }
    if column < COLUMNS {
        text(b"  ");
        return column + 1;
    }
    if kind == CLOSE {
        text(b"  ");
        return 1;
    }
    text(b"\n    ");
    1
}

// Writes a step, whose numbers stand from place k on, and tells how many steps are on its line.
fn step(kind: u8, places: &[f32], k: usize, column: usize) -> usize
    requires { k + 2 ≤ most_places }
{
    let next = begin(kind, column);
    match kind {
        MOVE => text(b"M"),
        LINE => text(b"L"),
        CURVE => text(b"Q"),
        _ => {
            text(b"Z\n");
            return 0;
        }
    }
    point(places, k);
    if kind == CURVE {
        point(places, k + 2);
    }
    next
}

// Writes the first of the steps that lists of kinds and places hold.
fn steps(kinds: &[u8], places: &[f32], count: usize)
    requires { length kinds.now ≤ most_steps }
{
    let n = least(count, kinds.len());
    let mut column = 0;
    for i in 0..n {
        column = step(kinds[i], places, STEP_PLACES * i, column);
    }
}

// The on-curve marks of a job.
fn marks_of(words: &[i32]) -> [u8; MOST_NUMBERS] {
    let mut marks = [0u8; MOST_NUMBERS];
    read_bytes(nth_list(words, 2), &mut marks);
    marks
}

// The contour ends of a job.
fn ends_of(words: &[i32]) -> [u16; MOST_NUMBERS] {
    let mut ends = [0u16; MOST_NUMBERS];
    read_indices(nth_list(words, 3), &mut ends);
    ends
}

// Writes how many pixels a display shows black of points, and their pieces less holes, behind the name of the step; the job has their marks and contour ends.
fn shown(step: &[u8], words: &[i32], xs: [i32; MOST_NUMBERS], ys: [i32; MOST_NUMBERS]) {
    let n = nth_list(words, 2).len();
    let marks = marks_of(words);
    let end = nth_list(words, 3).len();
    let ends = ends_of(words);
    let mut black = 0u32;
    let mut euler = 0i32;
    let answer = khs_count_shown(
        &xs[0..n],
        &ys[0..n],
        &marks[0..n],
        &ends[0..end],
        1,
        &mut black,
        &mut euler,
    );
    if refused(step, answer) {
        return;
    }
    show(
        b"# black pixels, pieces less holes ^\n",
        &[count_word(black as usize), euler],
    );
}

// Hands out the path of the points that both axes came to, and tells what is shown of them and of the points as they were; the job has their marks and contour ends, and no coordinates.
pub fn path(words: &[i32], glyph: Glyph) -> Glyph {
    let n = nth_list(words, 2).len();
    let marks = marks_of(words);
    let end = nth_list(words, 3).len();
    let ends = ends_of(words);
    let xs = xs_of(glyph);
    let ys = ys_of(glyph);
    let mut kinds = [0u8; MOST_STEPS];
    let mut places = [0.0f32; MOST_PLACES];
    let mut count = 0u32;
    let answer = khs_path(
        &xs[0..n],
        &ys[0..n],
        &marks[0..n],
        &ends[0..end],
        &mut kinds,
        &mut places,
        &mut count,
    );
    if refused(b"  path      ", answer) {
        return stopped(glyph);
    }
    show(b"# steps\n", &[count_word(count as usize)]);
    steps(&kinds, &places, count as usize);
    shown(b"  shown     ", words, xs, ys);
    shown(b"  unfitted  ", words, old_xs_of(glyph), old_ys_of(glyph));
    glyph
}
