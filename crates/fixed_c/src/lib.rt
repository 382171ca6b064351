// Fixed multiply, divide and multiply-divide under C names, in 64 bits and for every input, for tools/freetype to hold to FreeType's. No part of the product.
#![tactic(auto)]

ghost use Rattle.std.specs.Prelude.{◌≡◌};
ghost use Rattle.fixed.specs.Point.{mul_fix};
ghost use Rattle.fixed_c.specs.Divide.{div_or_zero, mul_div_or_zero};

use fixed::point::{wide_div, wide_mul};
use fixed_ratio::ratio::fixed_mul_div;

// Fixed multiply.
#[unsafe(no_mangle)]
pub extern "C" fn fixed_c_mul(a: i32, b: i32) -> i64
    ensures { result ≡ mul_fix a b }
{
    wide_mul(a, b)
}

// Fixed divide, and 0 where there is no divisor.
#[unsafe(no_mangle)]
pub extern "C" fn fixed_c_div(a: i32, b: i32) -> i64
    ensures { result ≡ div_or_zero a b }
{
    if b == 0 {
        return 0;
    }
    wide_div(a, b)
}

// Multiply-divide, and 0 where there is no divisor.
#[unsafe(no_mangle)]
pub extern "C" fn fixed_c_mul_div(a: i32, b: i32, c: i32) -> i64
    ensures { result ≡ mul_div_or_zero a b c }
{
    if c == 0 {
        return 0;
    }
    fixed_mul_div(a, b, c)
}
