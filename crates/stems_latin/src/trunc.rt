// Half of a number, its fraction dropped (the Rust's `/ 2`).
ghost use Rattle.std.specs.Prelude.{◌≡◌, pos};
ghost use Rattle.std.specs.Int.Signed.{quot_z};

// The half of -1 is 0.
pub fn half(x: i32) -> i32
    ensures { result ≡ quot_z x (pos 2) }
{
    x / 2
}
