// A segment read from its words.
ghost use Rattle.std.specs.Prelude.{◌≡◌, ◌≤◌};
ghost use Rattle.words.specs.Segment.{segment_from};

use axis::segment::Segment;
use words::field::{direction_at, flags_at, index_at, link_at, short_at};
use words::segment::{
    DELTA_PLACE, DIR_PLACE, EDGE_PLACE, FIRST_PLACE, HEIGHT_PLACE, LAST_PLACE, LEN_PLACE,
    LINK_PLACE, MAX_PLACE, MIN_PLACE, NEXT_PLACE, POS_PLACE, SCORE_PLACE, SERIF_PLACE,
};
use words::word::word_at;

// The segment whose words stand at a place.
pub fn segment_from(words: &[i32], at: usize) -> Segment
    requires { at ≤ 131072 }
    ensures { result ≡ segment_from words.now at }
{
    Segment {
        flags: flags_at(words, at),
        dir: direction_at(words, at + DIR_PLACE),
        pos: short_at(words, at + POS_PLACE),
        delta: short_at(words, at + DELTA_PLACE),
        min_coord: short_at(words, at + MIN_PLACE),
        max_coord: short_at(words, at + MAX_PLACE),
        height: short_at(words, at + HEIGHT_PLACE),
        score: word_at(words, at + SCORE_PLACE),
        len: word_at(words, at + LEN_PLACE),
        link: link_at(words, at + LINK_PLACE),
        serif: link_at(words, at + SERIF_PLACE),
        first: index_at(words, at + FIRST_PLACE),
        last: index_at(words, at + LAST_PLACE),
        edge: link_at(words, at + EDGE_PLACE),
        next: link_at(words, at + NEXT_PLACE),
    }
}
