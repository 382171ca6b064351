// Multiply-divide (the Rust's `fixed_mul_div`), in 64 bits for every triple with a divisor.
ghost use Rattle.std.specs.Prelude.{◌≡◌, ◌*◌, ◌≤◌, ◌<◌, nat_abs, ◌*ℤ◌};
ghost use Rattle.signed.specs.Range.{Between};
ghost use Rattle.fixed.specs.Point.{rounded_z};
ghost use Rattle.fixed_ratio.specs.Ratio.{mul_div, most_product};

use fixed::point::{magnitude, rounded_quotient, size, with_sign};

// x·y from 16-bit halves: four products in 32 bits, and the only 64-bit ones are by powers of two, shifts.
fn wide_product(x: u32, y: u32) -> u64
    requires { (x ≤ 2147483648) × (y ≤ 2147483648) }
    ensures { result ≡ x * y }
{
    let x_high = x / 65536;
    let x_low = x % 65536;
    let y_high = y / 65536;
    let y_low = y % 65536;
    let low = x_low * y_low;
    let middle = x_high * y_low + x_low * y_high;
    let high = x_high * y_high;
    (high as u64) * 4294967296 + (middle as u64) * 65536 + (low as u64)
}

// a·b.
fn product(a: i32, b: i32) -> i64
    ensures { result ≡ (a *ℤ b) }
{
    with_sign(wide_product(size(a), size(b)), a as i64, b as i64)
}

// n / d rounded to nearest, halves away from zero.
fn rounded_ratio(n: i64, d: i64) -> i64
    requires { Between most_product most_product n × Between most_product most_product d × (0 < nat_abs d) }
    ensures { result ≡ rounded_z n d }
{
    with_sign(rounded_quotient(magnitude(n), magnitude(d)), n, d)
}

// FreeType's FT_MulDiv: a·b / c rounded to nearest, halves away from zero.
pub fn fixed_mul_div(a: i32, b: i32, c: i32) -> i64
    requires { 0 < nat_abs c }
    ensures { result ≡ mul_div a b c }
{
    rounded_ratio(product(a, b), c as i64)
}
