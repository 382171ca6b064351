// Which test of segments fails, on their words: each test is that of the table that they are read as.
ghost use Rattle.std.specs.Prelude.{◌≡◌};
ghost use Rattle.axis.specs.Refusals.{every_segment, segment_passes, segments_indices, segments_nexts, segments_numbers};
ghost use Rattle.words.specs.Segment.{flat_segments};
ghost use Rattle.words_segment_test.specs.Held.{indices_hold};

use super::read::segment_from;
use axis::accept::{SegmentTest, segment_passes};
use axis::limits::MOST_SEGMENTS;
use words::segment::SEGMENT_WORDS;

// Whether every segment passes a test.
pub fn every_segment(words: &[i32], test: SegmentTest) -> bool
    ensures { result ≡ every_segment (segment_passes test) (flat_segments words.now) }
{
    let n = (words.len() / SEGMENT_WORDS).min(MOST_SEGMENTS);
    for i in 0..n {
        let segment = segment_from(words, SEGMENT_WORDS * i);
        if !segment_passes(segment, test) {
            return false;
        }
    }
    true
}

// Whether link and serif of every segment are segments.
pub fn indices_hold(words: &[i32]) -> bool
    ensures { result ≡ segments_indices (flat_segments words.now) }
{
    every_segment(words, SegmentTest::Indices(words.len() / SEGMENT_WORDS))
}

// Whether the next of every segment is a segment.
pub fn nexts_hold(words: &[i32]) -> bool
    ensures { result ≡ segments_nexts (flat_segments words.now) }
{
    every_segment(words, SegmentTest::Next(words.len() / SEGMENT_WORDS))
}

// Whether link and serif of every segment are segments, and so is each next where it is tested.
pub fn indexed_hold(words: &[i32], nexts: bool) -> bool
    ensures { result ≡ indices_hold (flat_segments words.now) nexts }
{
    if !indices_hold(words) {
        return false;
    }
    if nexts {
        return nexts_hold(words);
    }
    true
}

// Whether score and len of every segment are accepted.
pub fn numbers_hold(words: &[i32]) -> bool
    ensures { result ≡ segments_numbers (flat_segments words.now) }
{
    every_segment(words, SegmentTest::Numbers)
}
