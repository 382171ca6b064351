// Places in pixels as 32-bit floats (request #101): exactly units divided by 64, and exactly halfway between two of these.
#![tactic(auto)]

ghost use Rattle.std.specs.Prelude.{◌≡◌, ◌≤◌, nat_abs, ◌+ℤ◌};
ghost use Rattle.path_places.specs.Exact.{most_exact, over, Exactly};
ghost use Rattle.path_places.specs.Places.{point_at, halfway_at, origin};

// A place in pixels.
#[derive(Clone, Copy)]
pub struct PixelPoint {
    pub x: f32,
    pub y: f32,
}

// A coordinate in units, as pixels.
fn to_pixels(x: i32) -> f32
    requires { nat_abs x ≤ most_exact }
    ensures is { result ≡ over x 6 }
    ensures exact { Exactly result x 64 }
{
    (x as f32) / 64.0
}

// Halfway between two coordinates in units, as pixels.
fn halfway(a: i32, b: i32) -> f32
    requires { (nat_abs a ≤ most_exact) × (nat_abs b ≤ most_exact) }
    ensures is { result ≡ over (a +ℤ b) 7 }
    ensures exact { Exactly result (a +ℤ b) 128 }
{
    ((a + b) as f32) / 128.0
}

// The place of a point given in units.
pub fn pixel_point(x: i32, y: i32) -> PixelPoint
    requires { (nat_abs x ≤ most_exact) × (nat_abs y ≤ most_exact) }
    ensures { result ≡ point_at x y }
{
    PixelPoint {
        x: to_pixels(x),
        y: to_pixels(y),
    }
}

// The place halfway between the points (x, y) and (u, v).
pub fn halfway_point(x: i32, y: i32, u: i32, v: i32) -> PixelPoint
    requires { (nat_abs x ≤ most_exact) × (nat_abs y ≤ most_exact) × (nat_abs u ≤ most_exact) × (nat_abs v ≤ most_exact) }
    ensures { result ≡ halfway_at x y u v }
{
    PixelPoint {
        x: halfway(x, u),
        y: halfway(y, v),
    }
}

// The place that stands where a step has none.
pub fn no_place() -> PixelPoint
    ensures { result ≡ origin }
{
    pixel_point(0, 0)
}
