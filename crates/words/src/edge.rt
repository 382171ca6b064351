// Edges as words, and back.
ghost use Rattle.std.specs.Prelude.{◌≡◌, ◌≤◌};
ghost use Rattle.words.specs.Edge.{edge_from, edge_words};

use super::field::{
    blue_at, direction_at, direction_word, fitted_word, flags_at, flags_word, index_at, index_word,
    link_at, link_word, mark_at, mark_word, present_word, short_at, short_word,
};
use super::word::word_at;
use axis::edge::Edge;
use axis::limits::MOST_EDGES;

// How many words an edge is.
pub const EDGE_WORDS: usize = 12;

// The places of the fields among the words of an edge, behind its original position in font units; a blue has two, whether it is there and its fitted position.
pub const OPOS_PLACE: usize = 1;

pub const POS_PLACE: usize = 2;

pub const FLAGS_PLACE: usize = 3;

pub const DIR_PLACE: usize = 4;

pub const BLUE_PLACE: usize = 5;

pub const FITTED_PLACE: usize = 6;

pub const LINK_PLACE: usize = 7;

pub const SERIF_PLACE: usize = 8;

pub const FIRST_PLACE: usize = 9;

pub const LAST_PLACE: usize = 10;

pub const MARK_PLACE: usize = 11;

// How many words the places of the working table are.
pub const TABLE_WORDS: usize = EDGE_WORDS * MOST_EDGES;

// The edge whose words stand at a place.
pub fn edge_from(words: &[i32], at: usize) -> Edge
    requires { at ≤ 131072 }
    ensures { result ≡ edge_from words.now at }
{
    Edge {
        fpos: short_at(words, at),
        opos: word_at(words, at + OPOS_PLACE),
        pos: word_at(words, at + POS_PLACE),
        flags: flags_at(words, at + FLAGS_PLACE),
        dir: direction_at(words, at + DIR_PLACE),
        blue: blue_at(words, at + BLUE_PLACE),
        link: link_at(words, at + LINK_PLACE),
        serif: link_at(words, at + SERIF_PLACE),
        first: index_at(words, at + FIRST_PLACE),
        last: index_at(words, at + LAST_PLACE),
        mark: mark_at(words, at + MARK_PLACE),
    }
}

// The words of an edge.
pub fn edge_words(edge: Edge) -> [i32; EDGE_WORDS]
    ensures { result ≡ edge_words edge }
{
    let flags = edge.flags;
    let dir = edge.dir;
    let blue = edge.blue;
    let link = edge.link;
    let serif = edge.serif;
    let mark = edge.mark;
    [
        short_word(edge.fpos),
        edge.opos,
        edge.pos,
        flags_word(flags),
        direction_word(dir),
        present_word(blue),
        fitted_word(blue),
        link_word(link),
        link_word(serif),
        index_word(edge.first),
        index_word(edge.last),
        mark_word(mark),
    ]
}
