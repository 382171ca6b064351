// Pixel floor and pixel round (the Rust's `pix_floor` and `pix_round`).
ghost use Rattle.std.specs.Prelude.{◌≡◌};
ghost use Rattle.signed.specs.Range.{Between};
ghost use Rattle.fixed.specs.Pixel.{pix_floor, pix_round};

// The largest multiple of 64 not above x.
pub fn pix_floor(x: i32) -> i32
    ensures { result ≡ pix_floor x }
{
    (x >> 6) * 64
}

// The multiple of 64 nearest to x, the larger on a tie.
pub fn pix_round(x: i32) -> i32
    requires { Between 2147483648 2147483615 x }
    ensures { result ≡ pix_round x }
{
    pix_floor(x + 32)
}
