// The positions of segments at the scale.
ghost use Rattle.std.specs.Prelude.{◌≡◌, ◌≤◌};
ghost use Rattle.axis.specs.Limits.{most_segments};
ghost use Rattle.build.specs.Building.{products_hold};
ghost use Rattle.words.specs.Segment.{segments_in, flat_segments};

use axis::accept::is_inside;
use axis::limits::MOST_SEGMENTS;
use build::numbers::scaled_holds;
use build_join_words::read::read_segment;
use words::segment::SEGMENT_WORDS;

// The largest scale at which every 16-bit position is accepted.
const SAFE_SCALE: i32 = 131070;

// Whether the position of every segment at the scale is accepted: at a safe one none is read. Of more segments than the limit none is read.
pub fn products_hold(words: &[i32], scale: i32) -> bool
    ensures { segments_in words.now ≤ most_segments → result ≡ products_hold (flat_segments words.now) scale }
{
    let n = words.len() / SEGMENT_WORDS;
    if MOST_SEGMENTS < n {
        return false;
    }
    if is_inside(scale, 0, SAFE_SCALE) {
        return true;
    }
    for i in 0..n {
        if !scaled_holds(read_segment(words, i as u16), scale) {
            return false;
        }
    }
    true
}
