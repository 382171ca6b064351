// One edge of a lent list: what fitting reads of it, and its position, its mark, its flags, its zone, its link and its serif written.
ghost use Rattle.std.specs.Prelude.{◌≡◌, ◌<◌, ◌≤◌, ◌+◌, ◌*◌, length, set};
ghost use Rattle.axis.specs.Accepted.{Below};
ghost use Rattle.axis.specs.Limits.{most_edges};
ghost use Rattle.axis.specs.Edge.{edge_at};
ghost use Rattle.words.specs.Word.{word_at};
ghost use Rattle.words.specs.Field.{flags_of, mark_of};
ghost use Rattle.words.specs.Edge.{edge_size, flags_place, mark_place, edges_in, word_of_edge};
ghost use Rattle.words_call.specs.Lent.{edges_of};
ghost use Rattle.words_edge.specs.Whole.{Whole, reduced, Became, placing, flagging, fixing, unzoning, linking, serifing};

use axis::edge::Edge;
use axis::flags::Flags;
use axis::kinds::{Direction, Mark};
use words::edge::{
    BLUE_PLACE, EDGE_WORDS, FITTED_PLACE, FLAGS_PLACE, LINK_PLACE, MARK_PLACE, OPOS_PLACE,
    POS_PLACE, SERIF_PLACE,
};
use words::field::{blue_of, flags_of, flags_word, link_of, link_word, mark_of, mark_word};
use words::word::read_word;

// What fitting reads of an edge, its other fields empty: read whole, the function is too long to be inlined.
pub fn read_edge(words: &[i32], i: usize) -> Edge
    requires { Whole words.now × (i < edges_in words.now) }
    ensures { result ≡ reduced (edge_at (edges_of words.now) i) }
{
    let at = EDGE_WORDS * i;
    Edge {
        fpos: 0,
        opos: read_word(words, at + OPOS_PLACE),
        pos: read_word(words, at + POS_PLACE),
        flags: flags_of(read_word(words, at + FLAGS_PLACE)),
        dir: Direction::None,
        blue: blue_of(
            read_word(words, at + BLUE_PLACE),
            read_word(words, at + FITTED_PLACE),
        ),
        link: link_of(read_word(words, at + LINK_PLACE)),
        serif: None,
        first: 0,
        last: 0,
        mark: Mark::Nothing,
    }
}

// The flags of an edge.
pub fn read_flags(words: &[i32], i: usize) -> Flags
    requires { Whole words.now × (i < edges_in words.now) }
    ensures { result ≡ flags_of (word_at words.now (word_of_edge i flags_place)) }
{
    flags_of(read_word(words, EDGE_WORDS * i + FLAGS_PLACE))
}

// The mark of an edge.
pub fn read_mark(words: &[i32], i: usize) -> Mark
    requires { Whole words.now × (i < edges_in words.now) }
    ensures { result ≡ mark_of (word_at words.now (word_of_edge i mark_place)) }
{
    mark_of(read_word(words, EDGE_WORDS * i + MARK_PLACE))
}

// Writes the word of an edge in a field's place.
fn put_word(words: &mut [i32], i: usize, place: usize, word: i32)
    requires { (i < most_edges) × (place < edge_size) × (edge_size * i + edge_size ≤ length words.old) }
    ensures { words.new ≡ set words.old (word_of_edge i place) word }
{
    words[EDGE_WORDS * i + place] = word;
}

// Places an edge.
pub fn put_pos(words: &mut [i32], i: usize, pos: i32, mark: Mark)
    requires { Whole words.old × (i < edges_in words.old) }
    ensures { Became (placing i pos mark) words.old words.new }
{
    put_word(words, i, POS_PLACE, pos);
    put_word(words, i, MARK_PLACE, mark_word(mark));
}

// Gives an edge other flags.
pub fn put_flags(words: &mut [i32], i: usize, flags: Flags)
    requires { Whole words.old × (i < edges_in words.old) }
    ensures { Became (flagging i flags) words.old words.new }
{
    put_word(words, i, FLAGS_PLACE, flags_word(flags));
}

// Places an edge for good.
pub fn put_fixed(words: &mut [i32], i: usize, pos: i32, mark: Mark)
    requires { Whole words.old × (i < edges_in words.old) }
    ensures { Became (fixing i pos mark) words.old words.new }
{
    put_pos(words, i, pos, mark);
    let mut flags = read_flags(words, i);
    flags.done = true;
    put_flags(words, i, flags);
}

// Takes the zone of an edge away: its position first, so that each word written leaves the words of an edge.
pub fn put_no_zone(words: &mut [i32], i: usize)
    requires { Whole words.old × (i < edges_in words.old) }
    ensures { Became (unzoning i) words.old words.new }
{
    put_word(words, i, FITTED_PLACE, 0);
    put_word(words, i, BLUE_PLACE, 0);
}

// Links an edge to what `link` names.
pub fn put_link(words: &mut [i32], i: usize, link: Option<u16>)
    requires { Whole words.old × (i < edges_in words.old) × Below most_edges link }
    ensures { Became (linking i link) words.old words.new }
{
    put_word(words, i, LINK_PLACE, link_word(link));
}

// Makes an edge a serif of what `serif` names.
pub fn put_serif(words: &mut [i32], i: usize, serif: Option<u16>)
    requires { Whole words.old × (i < edges_in words.old) × Below most_edges serif }
    ensures { Became (serifing i serif) words.old words.new }
{
    put_word(words, i, SERIF_PLACE, link_word(serif));
}
