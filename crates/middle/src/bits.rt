// A 32-bit number and its bits, each way.
ghost use Rattle.std.specs.Prelude.{◌≡◌};
ghost use Rattle.std.specs.Int.{w32};
ghost use Rattle.std.proofs.Common.{of_z, to_z};

// The bits of x, as an unsigned number.
pub fn bits_of(x: i32) -> u32
    ensures { result ≡ of_z w32 x }
{
    if x < 0 {
        let wide = x as i64;
        return (wide + 4294967296) as u32;
    }
    x as u32
}

// The number that 32 bits stand for.
pub fn signed_of(bits: u32) -> i32
    ensures { result ≡ to_z w32 bits }
{
    let wide = bits as i64;
    if wide < 2147483648 {
        return wide as i32;
    }
    (wide - 4294967296) as i32
}
