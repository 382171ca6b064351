// Two rows of pixels: the turns of their black squares' outline that stand between them, of which the Euler number is made.
ghost use Rattle.std.specs.Prelude.{◌≡◌, ◌≤◌, ltb, length};
ghost use Rattle.shown_rows.specs.Turns.{bit, outer, inner, most_columns};
ghost use Rattle.shown_rows.specs.Rows.{Closed};

use super::changes::gained;

// How many black pixels, and how many outer and inner turns there are.
#[derive(Clone, Copy)]
pub struct Counts {
    pub black: u32,
    pub outer: u32,
    pub inner: u32,
}

// Whether a pixel is black.
fn is_black(pixel: u8) -> bool
    ensures { result ≡ ltb 0 pixel }
{
    0 < pixel
}

// Whether a winding is one around a black pixel's centre.
fn is_wound(winding: u16) -> bool
    ensures { result ≡ ltb 0 winding }
{
    0 < winding
}

// 1 for a black pixel.
fn pixel_of(black: bool) -> u8
    ensures { result ≡ bit black }
{
    if black {
        return 1;
    }
    0
}

// 1 where of four pixels around a corner the left lower one alone is black.
fn outer_turn(a: bool, b: bool, c: bool, d: bool) -> u32
    ensures { result ≡ outer a b c d }
{
    if d {
        return 0;
    }
    if c {
        return 0;
    }
    if b {
        return 0;
    }
    if a {
        return 1;
    }
    0
}

// 1 where the right lower and the left upper one are black, and the right upper one is white.
fn inner_turn(b: bool, c: bool, d: bool) -> u32
    ensures { result ≡ inner b c d }
{
    if d {
        return 0;
    }
    if c {
        if b {
            return 1;
        }
    }
    0
}

// Reads the pixels of a row off its changes, writes them over the row below it, and counts them and the turns between the two rows: each between the pixel in front of a column and that of the column.
pub fn close_row(below: &mut [u8], changes: &[u16]) -> Counts
    requires { (length below.old ≡ length changes.now) × (length changes.now ≤ most_columns) }
    ensures { Closed below.old changes.now result below.new }
{
    let mut a = false;
    let mut c = false;
    let mut winding: u16 = 0;
    let mut blacks: u32 = 0;
    let mut outers: u32 = 0;
    let mut inners: u32 = 0;
    for (i, change) in changes.iter().enumerate() {
        let b = is_black(below[i]);
        winding = gained(winding, *change);
        let d = is_wound(winding);
        let here = pixel_of(d);
        below[i] = here;
        blacks += here as u32;
        outers += outer_turn(a, b, c, d);
        inners += inner_turn(b, c, d);
        a = b;
        c = d;
    }
    Counts {
        black: blacks,
        outer: outers,
        inner: inners,
    }
}
