// Where a line crosses a row of pixels: the first column whose centre is at or right of the crossing. Places are whole numbers, 32,768 to a pixel, none below 0.
ghost use Rattle.std.specs.Prelude.{◌≡◌, ◌*◌, ◌≤◌, ◌<◌};
ghost use Rattle.shown_rows.specs.Crossing.{most_place, Starts, ceiling};

// The product of two numbers from 16-bit halves: no 64-bit product of two variables.
fn product(x: u32, y: u32) -> u64
    requires { (x < most_place) × (y < most_place) }
    ensures { result ≡ x * y }
{
    let x_high = x / 65536;
    let x_low = x % 65536;
    let y_high = y / 65536;
    let y_low = y % 65536;
    let high = x_high * y_high;
    let middle = x_high * y_low + x_low * y_high;
    let low = x_low * y_low;
    (high as u64) * 4294967296 + (middle as u64) * 65536 + (low as u64)
}

// x * y / d, rounded up.
fn part_of(x: u32, y: u32, d: u32) -> u32
    requires { (x < most_place) × (y ≤ d) × (0 < d) × (d < most_place) }
    ensures { (result ≡ ceiling (x * y) d) × (result < most_place) }
{
    let n = product(x, y);
    let wide = d as u64;
    ((n + wide - 1) / wide) as u32
}

// The first column of which the line from (lx, ly) up to (hx, hy) is crossed at or left of the centre, in the row with its centre at y.
pub fn first_column(lx: u32, ly: u32, hx: u32, hy: u32, y: u32) -> u32
    requires lx_lt_most_place { (lx < most_place) × (hx < most_place) × (hy < most_place) }
    requires ly_le_y { (ly ≤ y) × (y < hy) }
    ensures { Starts lx ly hx hy y result }
{
    let height = hy - ly;
    if lx <= hx {
        let x = lx + part_of(hx - lx, y - ly, height);
        return (x + 16383) / 32768;
    }
    let x = hx + part_of(lx - hx, hy - y, height);
    (x + 16383) / 32768
}
