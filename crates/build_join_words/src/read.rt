// What joining reads of segments, where their words stand.
ghost use Rattle.std.specs.Prelude.{◌≡◌, true, not, ◌&&◌, ◌||◌, ◌<◌};
ghost use Rattle.std.specs.Int.Signed.{le_z};
ghost use Rattle.axis.specs.Direction.{same as same_as};
ghost use Rattle.axis.specs.Limits.{most_segments};
ghost use Rattle.axis.specs.Ring.{walk, ends};
ghost use Rattle.build_join.specs.Walks.{next_in, no_stem, stems_agree};
ghost use Rattle.words.specs.Segment.{segments_in};
ghost use Rattle.build_join_words.specs.Reading.{segment_in, edge_in, edge_at_place, stem_in, own_stem, stems_in};

use axis::edge::{EMPTY_EDGE, Edge};
use axis::flags::NORMAL;
use axis::kinds::Direction;
use axis::limits::MOST_SEGMENTS;
use axis::segment::Segment;
use build_join::ring::{NO_STEM, stem_near};
use words::field::{direction_of, link_at, link_of, short_at, short_of};
use words::segment::{
    DELTA_PLACE, DIR_PLACE, HEIGHT_PLACE, LINK_PLACE, POS_PLACE, SEGMENT_WORDS, SERIF_PLACE,
};
use words::word::read_word;

// What joining asks of a segment by itself, its other fields empty.
pub fn read_segment(words: &[i32], i: u16) -> Segment
    requires { i < segments_in words.now }
    ensures { result ≡ segment_in words.now i }
{
    let at = SEGMENT_WORDS * (i as usize);
    Segment {
        flags: NORMAL,
        dir: direction_of(read_word(words, at + DIR_PLACE)),
        pos: short_of(read_word(words, at + POS_PLACE)),
        delta: short_of(read_word(words, at + DELTA_PLACE)),
        min_coord: 0,
        max_coord: 0,
        height: short_of(read_word(words, at + HEIGHT_PLACE)),
        score: 0,
        len: 0,
        link: None,
        serif: link_of(read_word(words, at + SERIF_PLACE)),
        first: 0,
        last: 0,
        edge: None,
        next: None,
    }
}

// Whether a loop leaves segment i out by its direction alone: the second one does where there is any.
pub fn is_left_out(words: &[i32], i: u16, second: bool) -> bool
    requires { i < segments_in words.now }
    ensures { result ≡ (second && not (same_as (segment_in words.now i).dir Direction.None)) }
{
    if !second {
        return false;
    }
    let dir = direction_of(read_word(words, SEGMENT_WORDS * (i as usize) + DIR_PLACE));
    dir != Direction::None
}

// What joining asks of an edge by its first segment and its last one, its other fields empty.
pub fn read_edge(words: &[i32], first: u16, last: u16) -> Edge
    requires { first < segments_in words.now }
    ensures { result ≡ edge_in words.now first last }
{
    let at = SEGMENT_WORDS * (first as usize);
    let dir = direction_of(read_word(words, at + DIR_PLACE));
    let fpos = short_of(read_word(words, at + POS_PLACE));
    Edge {
        fpos,
        dir,
        first,
        last,
        ..EMPTY_EDGE
    }
}

// An edge at a position, as far as nothing else is asked of it.
pub fn edge_at(fpos: i16) -> Edge
    ensures { result ≡ edge_at_place fpos }
{
    Edge { fpos, ..EMPTY_EDGE }
}

// The position of a segment's link, or the number that stands for none.
fn read_stem(words: &[i32], i: u16) -> i32
    ensures { result ≡ stem_in words.now i }
{
    let link = link_at(words, SEGMENT_WORDS * (i as usize) + LINK_PLACE);
    match link {
        None => NO_STEM,
        Some(ix) => short_at(words, SEGMENT_WORDS * (ix as usize) + POS_PLACE) as i32,
    }
}

// The same for CJK; Latin asks for none.
pub fn own_stem(words: &[i32], i: u16, cjk: bool) -> i32
    ensures { result ≡ own_stem words.now cjk i }
{
    if cjk {
        return read_stem(words, i);
    }
    NO_STEM
}

// Whether every linked segment of a ring has its link near a stem, where there is one: then all of them can make a single edge.
pub fn ring_agrees(
    words: &[i32],
    next: &[u16; MOST_SEGMENTS],
    first: u16,
    last: u16,
    stem: i32,
    near: u64,
) -> bool
    requires { (first < most_segments) × (ends (next_in next.now) most_segments last most_segments first ≡ true) }
    ensures { result ≡ (le_z no_stem stem || stems_agree (stems_in words.now) near stem (walk (next_in next.now) last most_segments first)) }
{
    if NO_STEM <= stem {
        return true;
    }
    let mut ix = first;
    // a loop: the next segment is read from the ring
    loop {
        if !stem_near(stem, read_stem(words, ix), near) {
            return false;
        }
        if ix == last {
            return true;
        }
        ix = next[ix as usize];
    }
}
