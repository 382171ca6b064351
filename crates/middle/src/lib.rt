// Document 01, module 1: the Rust's `compute_mid_pos` and `compute_mid_delta` (topo/segments.rs), defined for all pairs.
#![tactic(auto)]

pub mod bits;

ghost use Rattle.std.specs.Prelude.{◌≡◌, ◌+ℤ◌, ◌-ℤ◌};
ghost use Rattle.std.specs.Int.Signed.{shr_z};
ghost use Rattle.std.specs.Int.{w16, w32};
ghost use Rattle.middle.specs.Middle.{wrap_z, ComputesMidPos, ComputesMidDelta};

use bits::{bits_of, signed_of};

// a + b, wrapped around at 32 bits.
fn wrapping_add(a: i32, b: i32) -> i32
    ensures { result ≡ wrap_z w32 (a +ℤ b) }
{
    signed_of(std::num::wrapping_add_u32(bits_of(a), bits_of(b)))
}

// a - b, wrapped around at 32 bits.
fn wrapping_sub(a: i32, b: i32) -> i32
    ensures { result ≡ wrap_z w32 (a -ℤ b) }
{
    signed_of(std::num::wrapping_sub_u32(bits_of(a), bits_of(b)))
}

// Half of x, downward: the Rust's `x >> 1`.
fn half_down(x: i32) -> i32
    ensures { result ≡ shr_z x 2 }
{
    x >> 1
}

// The low 16 bits of x, read as signed: the Rust's `x as i16`.
fn low_16(x: i32) -> i16
    ensures { result ≡ wrap_z w16 x }
{
    let low = (bits_of(x) % 65536) as i32;
    if low < 32768 {
        return low as i16;
    }
    (low - 65536) as i16
}

// The middle of min and max: their sum wraps around at 32 bits, is halved downward, and its low 16 bits are read as signed.
pub fn compute_mid_pos(min: i32, max: i32) -> i16
    ensures { ComputesMidPos min max result }
{
    low_16(half_down(wrapping_add(min, max)))
}

// Half of max - min, the same way.
pub fn compute_mid_delta(min: i32, max: i32) -> i16
    ensures { ComputesMidDelta min max result }
{
    low_16(half_down(wrapping_sub(max, min)))
}
