// One segment of a lent list: what linking reads of it, and its score, length, link, serif, edge and next written.
ghost use Rattle.std.specs.Prelude.{◌≡◌, ◌<◌, ◌≤◌, ◌+◌, ◌*◌, length, set};
ghost use Rattle.signed.specs.Equality.{eq_z};
ghost use Rattle.signed.specs.Parts.{up};
ghost use Rattle.axis.specs.Accepted.{Below};
ghost use Rattle.axis.specs.Handed.{Short};
ghost use Rattle.axis.specs.Limits.{most_edges, most_segments};
ghost use Rattle.axis.specs.Segment.{segment_at};
ghost use Rattle.link.specs.Rounds.{unlink};
ghost use Rattle.words.specs.Word.{word_at};
ghost use Rattle.words.specs.Field.{link_of, direction_word};
ghost use Rattle.words.specs.Segment.{segment_size, word_of_segment, segments_in, flat_segments};
ghost use Rattle.words_segment.specs.Whole.{Whole, reduced, Became, joining, loosing, leading, ringing};

use axis::flags::NORMAL;
use axis::segment::Segment;
use words::field::{direction_at, index_word, link_word};
use words::segment::{
    DIR_PLACE, EDGE_PLACE, LEN_PLACE, LINK_PLACE, MAX_PLACE, MIN_PLACE, NEXT_PLACE, POS_PLACE,
    SCORE_PLACE, SEGMENT_WORDS, SERIF_PLACE,
};
use words::word::{read_word, size_of};

// A word that is a 16-bit number.
fn read_short(words: &[i32], at: usize) -> i16
    requires { (at < length words.now) × Short (word_at words.now at) }
    ensures { result ≡ word_at words.now at }
{
    let word = words[at];
    word as i16
}

// A word that is an index or none.
fn read_link(words: &[i32], at: usize) -> Option<u16>
    requires { (at < length words.now) × (up (word_at words.now at) < 65536) }
    ensures { result ≡ link_of (word_at words.now at) }
{
    let word = words[at];
    if word < 0 {
        return None;
    }
    let index = size_of(word) as u16;
    Some(index)
}

// Whether the direction of a segment has this word.
pub fn is_directed(words: &[i32], i: usize, dir: i32) -> bool
    requires { Whole words.now × (i < segments_in words.now) }
    ensures { result ≡ eq_z (direction_word (segment_at (flat_segments words.now) i).dir) dir }
{
    read_word(words, SEGMENT_WORDS * i + DIR_PLACE) == dir
}

// What linking reads of a segment, its other fields empty.
pub fn read_segment(words: &[i32], i: usize) -> Segment
    requires { Whole words.now × (i < segments_in words.now) }
    ensures { result ≡ reduced (segment_at (flat_segments words.now) i) }
{
    let at = SEGMENT_WORDS * i;
    Segment {
        flags: NORMAL,
        dir: direction_at(words, at + DIR_PLACE),
        pos: read_short(words, at + POS_PLACE),
        delta: 0,
        min_coord: read_short(words, at + MIN_PLACE),
        max_coord: read_short(words, at + MAX_PLACE),
        height: 0,
        score: read_word(words, at + SCORE_PLACE),
        len: read_word(words, at + LEN_PLACE),
        link: read_link(words, at + LINK_PLACE),
        serif: read_link(words, at + SERIF_PLACE),
        first: 0,
        last: 0,
        edge: None,
        next: None,
    }
}

// Writes the word of a segment in a field's place.
fn put_word(words: &mut [i32], i: usize, place: usize, word: i32)
    requires { (i < most_segments) × (place < segment_size) × (segment_size * i + segment_size ≤ length words.old) }
    ensures { words.new ≡ set words.old (word_of_segment i place) word }
{
    words[SEGMENT_WORDS * i + place] = word;
}

// Links a segment to another one by a stem of this score and length.
pub fn put_stem(words: &mut [i32], i: usize, score: i32, len: i32, ix: u16)
    requires { Whole words.old × (i < segments_in words.old) }
    ensures { Became (joining i score len ix) words.old words.new }
{
    put_word(words, i, SCORE_PLACE, score);
    put_word(words, i, LEN_PLACE, len);
    put_word(words, i, LINK_PLACE, index_word(ix));
}

// Takes the link of a segment.
pub fn put_no_link(words: &mut [i32], i: usize)
    requires { Whole words.old × (i < segments_in words.old) }
    ensures { Became (unlink i) words.old words.new }
{
    put_word(words, i, LINK_PLACE, -1);
}

// Takes the link of a segment, and makes it a serif of what `serif` names.
pub fn put_serif(words: &mut [i32], i: usize, serif: Option<u16>)
    requires { Whole words.old × (i < segments_in words.old) × Below most_segments serif }
    ensures { Became (loosing i serif) words.old words.new }
{
    put_word(words, i, LINK_PLACE, -1);
    put_word(words, i, SERIF_PLACE, link_word(serif));
}

// Gives a segment the edge that `edge` names.
pub fn put_edge(words: &mut [i32], i: usize, edge: Option<u16>)
    requires { Whole words.old × (i < segments_in words.old) × Below most_edges edge }
    ensures { Became (leading i edge) words.old words.new }
{
    put_word(words, i, EDGE_PLACE, link_word(edge));
}

// Gives a segment the edge that `edge` names, and the next that `next` names.
pub fn put_ring(words: &mut [i32], i: usize, edge: Option<u16>, next: Option<u16>)
    requires { Whole words.old × (i < segments_in words.old) × Below most_edges edge × Below 65536 next }
    ensures { Became (ringing i edge next) words.old words.new }
{
    put_word(words, i, NEXT_PLACE, link_word(next));
    put_edge(words, i, edge);
}
