// Where the points of an outline come to by lent edges.
ghost use Rattle.std.specs.Prelude.{◌≡◌, ◌||◌, ◌<◌, length};
ghost use Rattle.axis.specs.Accepted.{AxisWithin};
ghost use Rattle.axis.specs.Edge.{edge_at};
ghost use Rattle.axis.specs.Limits.{most_pos};
ghost use Rattle.weak_contour.specs.Contour.{at, is_touched};
ghost use Rattle.weak_contour.specs.Steps.{Coordinate, Coordinates};
ghost use Rattle.words.specs.Edge.{edges_in};
ghost use Rattle.words_call.specs.Lent.{edges_of};
ghost use Rattle.words_edge.specs.Whole.{Whole};
ghost use Rattle.strong.specs.Strong.{with_edge, place_of, strong_at};
ghost use Rattle.strong_words.specs.Strong.{Placeable, PlacedAll, PlacedEach};

use super::search::{find_edge, read_fpos};
use strong::place::{Place, between, current_after, is_placed, mark_after, moved_with};
use words::edge::{EDGE_WORDS, OPOS_PLACE, POS_PLACE};
use words::word::read_word;

// The position of an edge.
fn read_pos(words: &[i32], i: usize) -> i32
    requires { Whole words.now × (i < edges_in words.now) }
    ensures { result ≡ (edge_at (edges_of words.now) i).pos }
{
    read_word(words, EDGE_WORDS * i + POS_PLACE)
}

// Where an original comes to with an edge.
fn with_edge(words: &[i32], i: usize, v: i32) -> Place
    requires { Whole words.now × AxisWithin most_pos (edges_of words.now) × (i < edges_in words.now) × Coordinate v }
    ensures { result ≡ with_edge (edges_of words.now) i v }
{
    let opos = read_word(words, EDGE_WORDS * i + OPOS_PLACE);
    moved_with(v, opos, read_pos(words, i))
}

// Where a point comes to, by its font position and its original.
fn place_in(words: &[i32], u: i32, v: i32) -> Place
    requires { Whole words.now × AxisWithin most_pos (edges_of words.now) × Coordinate v }
    ensures { result ≡ place_of (edges_of words.now) u v }
{
    let n = words.len() / EDGE_WORDS;
    if n == 0 {
        return Place::Stays;
    }
    if u <= read_fpos(words, 0) {
        return with_edge(words, 0, v);
    }
    if read_fpos(words, n - 1) <= u {
        return with_edge(words, n - 1, v);
    }
    let k = find_edge(words, u);
    let fpos = read_fpos(words, k);
    let pos = read_pos(words, k);
    if u == fpos {
        return Place::At(pos);
    }
    between(
        u,
        read_fpos(words, k - 1),
        read_pos(words, k - 1),
        fpos,
        pos,
    )
}

// Whether a point stays where it is: it is touched or weak.
fn is_held(touched: &[u8], weak: &[u8], i: usize) -> bool
    requires { (i < length touched.now) × (i < length weak.now) }
    ensures { result ≡ (is_touched touched.now i || is_touched weak.now i) }
{
    if touched[i] != 0 {
        return true;
    }
    if weak[i] != 0 {
        return true;
    }
    false
}

// Where a point of the outline comes to that does not stay.
fn free_at(words: &[i32], fonts: &[i16], originals: &[i32], i: usize) -> Place
    requires { Whole words.now × AxisWithin most_pos (edges_of words.now) × (i < length fonts.now) × (length originals.now ≡ length fonts.now) × Coordinates originals.now }
    ensures { result ≡ place_of (edges_of words.now) (at fonts.now i) (at originals.now i) }
{
    place_in(words, fonts[i] as i32, originals[i])
}

// Where a point of the outline comes to; it stays where it is touched or weak.
pub fn strong_at(
    words: &[i32],
    fonts: &[i16],
    originals: &[i32],
    touched: &[u8],
    weak: &[u8],
    i: usize,
) -> Place
    requires { Placeable words.now fonts.now originals.now touched.now weak.now × (i < length fonts.now) }
    ensures { result ≡ strong_at (edges_of words.now) fonts.now originals.now touched.now weak.now i }
{
    if is_held(touched, weak, i) {
        return Place::Stays;
    }
    free_at(words, fonts, originals, i)
}

// Brings every point to its place, and touches those that come to one, up to the first that is refused; whether there is none.
pub fn place_each(
    words: &[i32],
    fonts: &[i16],
    originals: &[i32],
    currents: &mut [i32],
    touched: &mut [u8],
    weak: &[u8],
) -> bool
    requires { Placeable words.now fonts.now originals.now touched.old weak.now × (length currents.old ≡ length fonts.now) }
    ensures { PlacedEach words.now fonts.now originals.now currents.old touched.old weak.now result currents.new touched.new }
{
    let n = fonts.len();
    for i in 0..n {
        if is_held(touched, weak, i) {
            continue;
        }
        let place = free_at(words, fonts, originals, i);
        if !is_placed(place) {
            return false;
        }
        let current = current_after(currents[i], place);
        let mark = mark_after(touched[i], place);
        currents[i] = current;
        touched[i] = mark;
    }
    true
}
