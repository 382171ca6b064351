// What is read of a segment where its words stand.
ghost use Rattle.std.specs.Prelude.{◌≡◌, ◌<◌};
ghost use Rattle.axis.specs.Segment.{segment_at};
ghost use Rattle.words.specs.Segment.{segments_in, flat_segments};
ghost use Rattle.words_segment.specs.Whole.{Whole};

use words::field::{index_of, link_of};
use words::segment::{EDGE_PLACE, FIRST_PLACE, LAST_PLACE, SEGMENT_WORDS};
use words::word::read_word;

// Its edge, or none.
pub fn edge_of(segments: &[i32], i: usize) -> Option<u16>
    requires { Whole segments.now × (i < segments_in segments.now) }
    ensures { result ≡ (segment_at (flat_segments segments.now) i).edge }
{
    link_of(read_word(segments, SEGMENT_WORDS * i + EDGE_PLACE))
}

// Its first point.
pub fn first_of(segments: &[i32], i: usize) -> usize
    requires { Whole segments.now × (i < segments_in segments.now) }
    ensures { result ≡ (segment_at (flat_segments segments.now) i).first }
{
    usize::from(index_of(read_word(segments, SEGMENT_WORDS * i + FIRST_PLACE)))
}

// Its last point.
pub fn last_of(segments: &[i32], i: usize) -> usize
    requires { Whole segments.now × (i < segments_in segments.now) }
    ensures { result ≡ (segment_at (flat_segments segments.now) i).last }
{
    usize::from(index_of(read_word(segments, SEGMENT_WORDS * i + LAST_PLACE)))
}
