// Half of a number, rounded down (the Rust's `>> 1`).
ghost use Rattle.std.specs.Prelude.{◌≡◌};
ghost use Rattle.std.specs.Int.Signed.{shr_z};

// The half of -1 is -1.
pub fn half(x: i32) -> i32
    ensures { result ≡ shr_z x 2 }
{
    x >> 1
}
