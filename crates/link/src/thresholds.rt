// What the rounds measure stems by (the Rust's `len_threshold` and `dist_threshold`).
ghost use Rattle.std.specs.Prelude.{◌≡◌, true};
ghost use Rattle.link.specs.Linking.{numbers_hold, thresholds_of};

use axis::accept::is_inside;
use axis::limits::{LEAST_SCALE, LEAST_UNITS_PER_EM, MOST_SCALE, MOST_UNITS_PER_EM};
use fixed::point::{derived_constant, fixed_div};

// The least overlap of the two segments of a stem, and the distance below which a stem is near.
#[derive(Clone, Copy)]
pub struct Thresholds {
    pub len: i32,
    pub dist: i32,
}

// Whether units per em and scale are accepted.
pub fn numbers_hold(units_per_em: i32, scale: i32) -> bool
    ensures { result ≡ numbers_hold units_per_em scale }
{
    if !is_inside(units_per_em, LEAST_UNITS_PER_EM, MOST_UNITS_PER_EM) {
        return false;
    }
    is_inside(scale, LEAST_SCALE, MOST_SCALE)
}

// The thresholds in font units: the derived constant of 8, and three pixels at the scale.
pub fn thresholds_of(units_per_em: i32, scale: i32) -> Thresholds
    requires { numbers_hold units_per_em scale ≡ true }
    ensures { result ≡ thresholds_of units_per_em scale }
{
    let len = derived_constant(units_per_em, 8);
    let quotient = fixed_div(64 * 3, scale);
    let Some(dist) = quotient else {
        return Thresholds { len, dist: 0 };
    };
    Thresholds { len, dist }
}
