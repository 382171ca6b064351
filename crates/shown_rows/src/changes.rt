// A row of changes: what winding gains at each column, modulo 65,536.
ghost use Rattle.std.specs.Prelude.{◌-◌, ◌≤◌, ◌<◌, ◌≡◌};
ghost use Rattle.shown_rows.specs.Crossing.{most_place};
ghost use Rattle.shown_rows.specs.Changes.{Added, Gained};

use super::crossing::first_column;

// The sum modulo 65,536.
pub fn gained(x: u16, by: u16) -> u16
    ensures { Gained x by result }
{
    ((x as u32 + by as u32) % 65536) as u16
}

// The place of the column c in a row from the column `left` on; what is left of the row counts from its first column on.
fn place_in(left: u32, c: u32) -> usize
    ensures { result ≡ c - left }
{
    if c < left {
        return 0;
    }
    (c - left) as usize
}

// Adds a line that goes up over the height y from (lx, ly) to (hx, hy) to the row of the columns from `left` on; a column behind the row has no pixel.
pub fn cross_line(
    changes: &mut [u16],
    left: u32,
    lx: u32,
    ly: u32,
    hx: u32,
    hy: u32,
    y: u32,
    by: u16,
)
    requires lx_lt_most_place { (lx < most_place) × (hx < most_place) × (hy < most_place) }
    requires ly_le_y { (ly ≤ y) × (y < hy) }
    ensures { Added left lx ly hx hy y by changes.old changes.new }
{
    let k = place_in(left, first_column(lx, ly, hx, hy, y));
    if k < changes.len() {
        changes[k] = gained(changes[k], by);
    }
}
