// The numbers passed beside the segments: their limits, the distance threshold, and a position at the scale.
ghost use Rattle.std.specs.Prelude.{◌≡◌, ◌<◌, nat_abs};
ghost use Rattle.signed.specs.Range.{Between};
ghost use Rattle.axis.specs.Limits.{most_score, most_scale};
ghost use Rattle.build.specs.Building.{numbers_hold, near_of, scaled_holds};

use axis::accept::is_inside;
use axis::limits::{LEAST_SCALE, LEAST_UNITS, MOST_SCALE, MOST_SCORE, MOST_UNITS};
use axis::segment::Segment;
use fixed::point::{fixed_mul, magnitude, wide_div, wide_mul};

// A quarter of a pixel, the most that the distance threshold comes to at the scale.
const MOST_DISTANCE: i32 = 16;

// The thresholds that a call passes: edge distance, segment length and segment width.
#[derive(Clone, Copy)]
pub struct Thresholds {
    pub distance: i32,
    pub length: i32,
    pub width: i32,
}

// Whether the scale and the thresholds are accepted.
pub fn numbers_hold(scale: i32, thresholds: Thresholds) -> bool
    ensures { result ≡ numbers_hold scale thresholds }
{
    if !is_inside(scale, LEAST_SCALE, MOST_SCALE) {
        return false;
    }
    if !is_inside(thresholds.distance, 0, MOST_SCORE) {
        return false;
    }
    if !is_inside(thresholds.length, 0, MOST_SCORE) {
        return false;
    }
    is_inside(thresholds.width, 0, MOST_SCORE)
}

// The distance below which a segment joins an edge, in font units: the threshold, or less where that is more than a quarter of a pixel.
pub fn near_of(distance: i32, scale: i32, cjk: bool) -> u64
    requires { (Between 0 most_score distance) × (Between 0 most_scale scale) × (0 < nat_abs scale) }
    ensures { result ≡ near_of cjk distance scale }
{
    let scaled = fixed_mul(distance, scale);
    if MOST_DISTANCE < scaled {
        return magnitude(wide_div(MOST_DISTANCE, scale));
    }
    if cjk {
        return magnitude(distance as i64);
    }
    magnitude(wide_div(scaled, scale))
}

// Whether a segment's position at the scale is accepted.
pub fn scaled_holds(segment: Segment, scale: i32) -> bool
    ensures { result ≡ scaled_holds scale segment }
{
    let scaled = wide_mul(segment.pos as i32, scale);
    if (LEAST_UNITS as i64) <= scaled {
        return scaled <= (MOST_UNITS as i64);
    }
    false
}
