// The C functions of the library `fixed_c` as a static library, each handed on with its clauses. tools/freetype links it as libfixed_c.a.
#![tactic(auto)]

ghost use Rattle.std.specs.Prelude.{◌≡◌};
ghost use Rattle.fixed.specs.Point.{mul_fix};
ghost use Rattle.fixed_c.specs.Divide.{div_or_zero, mul_div_or_zero};

// Fixed multiply.
#[unsafe(no_mangle)]
pub extern "C" fn fixed_c_mul(a: i32, b: i32) -> i64
    ensures { result ≡ mul_fix a b }
{
    fixed_c::fixed_c_mul(a, b)
}

// Fixed divide, and 0 where there is no divisor.
#[unsafe(no_mangle)]
pub extern "C" fn fixed_c_div(a: i32, b: i32) -> i64
    ensures { result ≡ div_or_zero a b }
{
    fixed_c::fixed_c_div(a, b)
}

// Multiply-divide, and 0 where there is no divisor.
#[unsafe(no_mangle)]
pub extern "C" fn fixed_c_mul_div(a: i32, b: i32, c: i32) -> i64
    ensures { result ≡ mul_div_or_zero a b c }
{
    fixed_c::fixed_c_mul_div(a, b, c)
}
