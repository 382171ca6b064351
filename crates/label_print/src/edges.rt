// Edges that a step placed or moved, for a person to look at.
ghost use Rattle.std.specs.Prelude.{◌<◌, ◌≤◌};
ghost use Rattle.axis.specs.Limits.{most_edges};
ghost use Rattle.words.specs.Edge.{edge_size};

use super::print::{show, text};
use axis::accept::least;
use axis::kinds::Mark;
use axis::limits::MOST_EDGES;
use middle::bits::{bits_of, signed_of};
use words::edge::EDGE_WORDS;
use words::field::{index_of, mark_at};
use words::word::{count_word, size_of, word_at};

// Where the fields of an edge stand among its words.
const FPOS: usize = 0;

const OPOS: usize = 1;

pub const POS: usize = 2;

pub const FLAGS: usize = 3;

pub const BLUE: usize = 5;

pub const FITTED: usize = 6;

pub const LINK: usize = 7;

const MARK: usize = 11;

// The place of none, which is past the end of every list.
const NONE: usize = 65535;

// The word of an edge's field, and 0 where there is no such edge.
pub fn field(edges: &[i32], i: usize, k: usize) -> i32
    requires { (i ≤ 65535) × (k < edge_size) }
{
    word_at(edges, EDGE_WORDS * i + k)
}

// The place that a word names.
pub fn place_of(word: i32) -> usize
    ensures { result ≤ 65535 }
{
    if word < 0 {
        return NONE;
    }
    index_of(word) as usize
}

// Whether an edge is done.
pub fn done(edges: &[i32], i: usize) -> bool
    requires { i ≤ 65535 }
{
    4 <= size_of(field(edges, i, FLAGS)) % 8
}

// Whether a step left an edge as it was.
fn stayed(before: &[i32], edges: &[i32], i: usize) -> bool
    requires { i < most_edges }
{
    if field(before, i, POS) != field(edges, i, POS) {
        return false;
    }
    if field(before, i, MARK) != field(edges, i, MARK) {
        return false;
    }
    done(before, i) == done(edges, i)
}

// How far one edge is behind another, by one of their fields.
fn distance(edges: &[i32], i: usize, other: usize, k: usize) -> i32
    requires { (i ≤ 65535) × (other ≤ 65535) × (k < edge_size) }
{
    let from = bits_of(field(edges, i, k));
    let to = bits_of(field(edges, other, k));
    signed_of(std::num::wrapping_sub_u32(to, from))
}

// Writes the stem that an edge is a side of, with its width before and after at the first side once both are placed.
fn stem(edges: &[i32], i: usize)
    requires { i < most_edges }
{
    let link = field(edges, i, LINK);
    let other = place_of(link);
    if other == NONE {
        return;
    }
    show(b"  stem with #", &[link]);
    if i < other {
        if done(edges, other) {
            let was = distance(edges, i, other, OPOS);
            let is = distance(edges, i, other, POS);
            show(b", width ~ -> ~", &[was, is]);
        }
    }
}

// Writes what gave an edge its position.
fn giver(edges: &[i32], i: usize)
    requires { i < most_edges }
{
    match mark_at(edges, EDGE_WORDS * i + MARK) {
        Mark::Nothing => text(b"  nothing yet"),
        Mark::BlueAnchor => text(b"  blue anchor"),
        Mark::Blue => text(b"  blue"),
        Mark::Linked => text(b"  linked"),
        Mark::Anchor => text(b"  anchor"),
        Mark::Stem => text(b"  stem"),
        Mark::Adjusted => text(b"  adjusted"),
        Mark::Bound => text(b"  bound"),
        Mark::Serif => text(b"  serif"),
        Mark::LowercaseM => text(b"  lowercase m"),
        Mark::Between => text(b"  between"),
        Mark::Spaced => text(b"  spaced"),
        Mark::RemainingAnchor => text(b"  remaining anchor"),
    }
}

// Writes an edge that a step changed: its font position, where it was and where it is, its stem and what gave it its position. Where there were no edges before, its font position alone.
fn row(before: &[i32], edges: &[i32], i: usize)
    requires { i < most_edges }
{
    if before.len() == 0 {
        show(b" ^", &[field(edges, i, FPOS)]);
        return;
    }
    if stayed(before, edges, i) {
        return;
    }
    let numbers = [
        count_word(i),
        field(edges, i, FPOS),
        field(before, i, POS),
        field(edges, i, POS),
    ];
    show(b"    edge^  at ^@ ->@", &numbers);
    stem(edges, i);
    giver(edges, i);
    text(b"\n");
}

// Writes the edges that a step changed.
pub fn changes(before: &[i32], edges: &[i32], count: usize) {
    for i in 0..least(count, MOST_EDGES) {
        row(before, edges, i);
    }
}
