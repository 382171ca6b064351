// What the properties of edges read of segments, where their words stand.
ghost use Rattle.std.specs.Prelude.{◌≡◌, ◌<◌, length};
ghost use Rattle.axis.specs.Accepted.{Below};
ghost use Rattle.axis.specs.Handed.{Short};
ghost use Rattle.axis.specs.Link.{index_or};
ghost use Rattle.words.specs.Field.{short_of};
ghost use Rattle.words.specs.Segment.{pos_place, word_of_segment, segments_in};
ghost use Rattle.words.specs.Word.{word_at};
ghost use Rattle.build_properties_words.specs.Reading.{asked, words_of, Shorts, named_in, Naming, join_in};

use axis::flags::NORMAL;
use axis::kinds::Direction;
use axis::segment::Segment;
use build_properties::join::{Join, join_of};
use words::field::{flags_of, link_of};
use words::segment::{EDGE_PLACE, LINK_PLACE, NEXT_PLACE, POS_PLACE, SEGMENT_WORDS, SERIF_PLACE};
use words::word::read_word;

// A word that is a 16-bit number.
fn short_in(words: &[i32], at: usize) -> i16
    requires { (at < length words.now) × Short (word_at words.now at) }
    ensures { result ≡ short_of (word_at words.now at) }
{
    let word = words[at];
    word as i16
}

// What a join asks of a segment, its other fields empty.
fn read_segment(words: &[i32], i: u16) -> Segment
    requires { (i < segments_in words.now) × Short (word_at words.now (word_of_segment i pos_place)) }
    ensures { result ≡ asked (words_of words.now i) }
{
    let at = SEGMENT_WORDS * (i as usize);
    Segment {
        flags: NORMAL,
        dir: Direction::None,
        pos: short_in(words, at + POS_PLACE),
        delta: 0,
        min_coord: 0,
        max_coord: 0,
        height: 0,
        score: 0,
        len: 0,
        link: link_of(read_word(words, at + LINK_PLACE)),
        serif: link_of(read_word(words, at + SERIF_PLACE)),
        first: 0,
        last: 0,
        edge: link_of(read_word(words, at + EDGE_PLACE)),
        next: None,
    }
}

// The same of the segment that an index names; without an index it is the segment's own.
fn read_named(words: &[i32], ix: Option<u16>, own: Segment) -> Segment
    requires { Below (segments_in words.now) ix × Shorts words.now }
    ensures { result ≡ named_in words.now own ix }
{
    match ix {
        None => own,
        Some(i) => read_segment(words, i),
    }
}

// What segment ix of edge k asks for.
pub fn read_join(words: &[i32], k: usize, ix: u16) -> Join
    requires { Naming words.now ix × Shorts words.now }
    ensures { result ≡ join_in words.now k ix }
{
    let segment = read_segment(words, ix);
    let serif_ix = segment.serif;
    let link_ix = segment.link;
    let serif = read_named(words, serif_ix, segment);
    let link = read_named(words, link_ix, segment);
    join_of(segment, serif, link, k)
}

// Whether a segment is round.
pub fn is_round(words: &[i32], ix: u16) -> bool
    requires { ix < segments_in words.now }
    ensures { result ≡ (words_of words.now ix).flags.round }
{
    let flags = flags_of(read_word(words, SEGMENT_WORDS * (ix as usize)));
    flags.round
}

// The segment behind another, or the last one where there is none.
pub fn read_next(words: &[i32], ix: u16, last: u16) -> u16
    requires { ix < segments_in words.now }
    ensures { result ≡ index_or last (words_of words.now ix).next }
{
    let next = link_of(read_word(words, SEGMENT_WORDS * (ix as usize) + NEXT_PLACE));
    match next {
        None => last,
        Some(i) => i,
    }
}
