// Fixed multiply, fixed divide and the derived constant (the Rust's `fixed_mul`, `fixed_div` and `derived_constant`).
ghost use Rattle.std.specs.Prelude.{◌≡◌, ◌*◌, ◌≤◌, ◌<◌, nat_abs};
ghost use Rattle.std.specs.Int.{w32};
ghost use Rattle.std.proofs.Common.{SFits};
ghost use Rattle.signed.specs.Range.{Between};
ghost use Rattle.fixed.specs.Point.{rounded, mul_fix, div_fix, derived};
ghost use Rattle.fixed.specs.Divide.{quotient_of};
ghost use Rattle.fixed.specs.Steps.{most_constant, most_em, signed_like};

// The magnitude of x.
pub fn magnitude(x: i64) -> u64
    requires { Between 4611686018427387904 4611686018427387904 x }
    ensures { result ≡ nat_abs x }
{
    if x < 0 {
        return (0 - x) as u64;
    }
    x as u64
}

// n / d rounded to nearest, a half upward.
pub fn rounded_quotient(n: u64, d: u64) -> u64
    requires { (0 < d) × (n ≤ 4611686018427387904) × (d ≤ 4611686018427387904) }
    ensures { result ≡ rounded n d }
{
    (2 * n + d) / (2 * d)
}

// The magnitude of x in 32 bits, the lowest number's too.
pub fn size(x: i32) -> u32
    ensures { result ≡ nat_abs x }
{
    magnitude(x as i64) as u32
}

// x·y / 65,536 rounded to nearest, a half upward, from 16-bit halves: four products in 32 bits. Only that of the low halves has a fraction, so it alone is rounded.
fn rounded_product(x: u32, y: u32) -> u64
    requires { (x ≤ 2147483648) × (y ≤ 2147483648) }
    ensures { result ≡ rounded (x * y) 65536 }
{
    let x_high = x / 65536;
    let x_low = x % 65536;
    let y_high = y / 65536;
    let y_low = y % 65536;
    let carry = (x_low * y_low + 32768) / 65536;
    let middle = x_high * y_low + x_low * y_high + carry;
    let high = x_high * y_high;
    (high as u64) * 65536 + (middle as u64)
}

// A magnitude with the sign of a product or a quotient of a and b: below zero where exactly one of them is.
pub fn with_sign(size: u64, a: i64, b: i64) -> i64
    requires { size ≤ 4611686018427387904 }
    ensures { result ≡ signed_like size a b }
{
    let plain = size as i64;
    if a < 0 {
        if b < 0 {
            return plain;
        }
        return 0 - plain;
    }
    if b < 0 {
        return 0 - plain;
    }
    plain
}

// Fixed multiply for every pair, from magnitudes of 32 bits: the only 64-bit product is by 65,536, a shift.
pub fn wide_mul(a: i32, b: i32) -> i64
    ensures { result ≡ mul_fix a b }
{
    with_sign(rounded_product(size(a), size(b)), a as i64, b as i64)
}

// The magnitude of the fixed quotient of every pair with a divisor.
fn quotient_size(a: i32, b: i32) -> u64
    requires { 0 < nat_abs b }
    ensures { result ≡ rounded (nat_abs a * 65536) (nat_abs b) }
{
    let n = magnitude(a as i64) * 65536;
    rounded_quotient(n, magnitude(b as i64))
}

// Fixed divide in 64 bits, for every pair with a divisor.
pub fn wide_div(a: i32, b: i32) -> i64
    requires { 0 < nat_abs b }
    ensures { result ≡ div_fix a b }
{
    with_sign(quotient_size(a, b), a as i64, b as i64)
}

// FreeType's FT_MulFix, where the answer fits: a·b / 65,536 rounded to nearest, halves away from zero.
pub fn fixed_mul(a: i32, b: i32) -> i32
    requires { SFits w32 (mul_fix a b) }
    ensures { result ≡ mul_fix a b }
{
    wide_mul(a, b) as i32
}

// The largest magnitude of a quotient that is an answer.
const MOST_QUOTIENT: u64 = 2147483647;

// FreeType's FT_DivFix, an answer or too steep: a·65,536 / b rounded to nearest, halves away from zero.
pub fn fixed_div(a: i32, b: i32) -> Option<i32>
    requires { 0 < nat_abs b }
    ensures { result ≡ quotient_of a b }
{
    let size = quotient_size(a, b);
    if MOST_QUOTIENT < size {
        return None;
    }
    let answer = with_sign(size, a as i64, b as i64) as i32;
    Some(answer)
}

// c · units per em / 2048, fraction dropped.
pub fn derived_constant(units_per_em: i32, c: i32) -> i32
    requires between { Between 0 most_constant c }
    requires between_2 { Between 0 most_em units_per_em }
    ensures { result ≡ derived units_per_em c }
{
    c * units_per_em / 2048
}
