// Rows of the field one behind the other, each with the one below it.
ghost use Rattle.std.specs.Prelude.{◌≡◌, true, ◌+◌, ◌≤◌, ◌<◌, length};
ghost use Rattle.weak.specs.Weak.{ends_hold};
ghost use Rattle.path_trip.specs.Path.{points};
ghost use Rattle.path_trip.specs.Trips.{Admitted};
ghost use Rattle.shown_rows.specs.Turns.{most_columns};
ghost use Rattle.shown_lines.specs.Lines.{InField};
ghost use Rattle.shown_picture.specs.Window.{most_cells, picture, Bounds};
ghost use Rattle.shown_picture.specs.Rows.{most_count, Small, Sum, Cleared, White, row_from, RowRead, RowsRead};

use super::window::Window;
use shown_rows::turns::{Counts, close_row};
use shown_walk::cross_outline;

// Nothing is counted yet.
const NOTHING: Counts = Counts {
    black: 0,
    outer: 0,
    inner: 0,
};

// What is counted in two parts.
fn plus(a: Counts, b: Counts) -> Counts
    requires { Small most_count a × Small most_count b }
    ensures { Sum a b result }
{
    Counts {
        black: a.black + b.black,
        outer: a.outer + b.outer,
        inner: a.inner + b.inner,
    }
}

// Clears a row of changes.
fn clear(changes: &mut [u16])
    ensures { Cleared changes.old changes.new }
{
    changes.fill(0);
}

// Counts one row, from the column `left` on: its pixels are written over those of the row below it.
fn count_row(
    xs: &[i32],
    ys: &[i32],
    marks: &[u8],
    ends: &[u16],
    magnify: u32,
    left: u32,
    row: u32,
    below: &mut [u8],
    changes: &mut [u16],
) -> Counts
    requires admitted { Admitted (points xs.now ys.now marks.now) }
    requires ends_value { ends_hold 0 (length xs.now) ends.now ≡ true }
    requires in_field { InField (points xs.now ys.now marks.now) magnify }
    requires below_len { (length below.old ≡ length changes.old) × (length changes.old ≤ most_columns) × (row < most_cells) }
    ensures { RowRead (row_from (picture magnify (points xs.now ys.now marks.now) ends.now) left row)
        below.old (length changes.old) result below.new × (length changes.new ≡ length changes.old) }
{
    clear(changes);
    cross_outline(
        changes,
        left,
        xs,
        ys,
        marks,
        ends,
        magnify,
        32768 * row + 16384,
    );
    close_row(below, changes)
}

// Counts the rows of a window and one white row above them, from a white row below them on. The lists have a place for each column of the window, and for one behind it.
pub fn count_rows(
    xs: &[i32],
    ys: &[i32],
    marks: &[u8],
    ends: &[u16],
    magnify: u32,
    window: Window,
    below: &mut [u8],
    changes: &mut [u16],
) -> Counts
    requires admitted { Admitted (points xs.now ys.now marks.now) }
    requires ends_value { ends_hold 0 (length xs.now) ends.now ≡ true }
    requires in_field { InField (points xs.now ys.now marks.now) magnify }
    requires bounds { Bounds (picture magnify (points xs.now ys.now marks.now) ends.now) window }
    requires below_len { (length below.old ≡ window.columns + 1) × (length changes.old ≡ window.columns + 1) × White below.old }
    ensures { RowsRead (picture magnify (points xs.now ys.now marks.now) ends.now) window result }
{
    let mut counts = NOTHING;
    for j in 0..window.rows {
        let row = count_row(
            xs,
            ys,
            marks,
            ends,
            magnify,
            window.left,
            window.low + j,
            below,
            changes,
        );
        counts = plus(counts, row);
    }
    clear(changes);
    let top = close_row(below, changes);
    plus(counts, top)
}
