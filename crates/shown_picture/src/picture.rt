// The picture of an outline that is not refused, counted.
ghost use Rattle.std.specs.Prelude.{◌≡◌, true, length};
ghost use Rattle.weak.specs.Weak.{ends_hold};
ghost use Rattle.path_trip.specs.Path.{points};
ghost use Rattle.path_trip.specs.Trips.{Admitted};
ghost use Rattle.shown_lines.specs.Lines.{InField};
ghost use Rattle.shown_picture.specs.Window.{picture};
ghost use Rattle.shown_picture.specs.Rows.{PictureCounted};

use super::rows::count_rows;
use super::window::window_of;
use shown_rows::turns::Counts;

// Columns of the field, and one behind them.
const MOST_COLUMNS: usize = 2049;

// Counts the black pixels and the turns of an outline's picture. On the stack stand a row of pixels and a row of changes, of which only the window's columns are used.
pub fn count_picture(xs: &[i32], ys: &[i32], marks: &[u8], ends: &[u16], magnify: u32) -> Counts
    requires admitted { Admitted (points xs.now ys.now marks.now) }
    requires ends_value { ends_hold 0 (length xs.now) ends.now ≡ true }
    requires in_field { InField (points xs.now ys.now marks.now) magnify }
    ensures { PictureCounted (picture magnify (points xs.now ys.now marks.now) ends.now) result }
{
    let window = window_of(xs, ys, marks, ends, magnify);
    let places = window.columns + 1;
    let mut below = [0u8; MOST_COLUMNS];
    let mut changes = [0u16; MOST_COLUMNS];
    count_rows(
        xs,
        ys,
        marks,
        ends,
        magnify,
        window,
        &mut below[0..places],
        &mut changes[0..places],
    )
}
