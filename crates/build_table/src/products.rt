// The numbers passed beside the segments: their limits, the distance threshold, and the positions at the scale.
ghost use Rattle.std.specs.Prelude.{◌≡◌};
ghost use Rattle.build.specs.Building.{products_hold};

use axis::limits::MOST_SEGMENTS;
use axis::segment::Segments;
use build::numbers::scaled_holds;

// Whether the position of every segment at the scale is accepted.
pub fn products_hold(segments: Segments, scale: i32) -> bool
    ensures { result ≡ products_hold segments scale }
{
    let n = segments.len.min(MOST_SEGMENTS);
    for i in 0..n {
        let segment = segments.segments[i];
        if !scaled_holds(segment, scale) {
            return false;
        }
    }
    true
}
