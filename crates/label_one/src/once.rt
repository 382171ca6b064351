// An axis fitted once more, by one call on what it was before its steps, and compared with what these left.
ghost use Rattle.std.specs.Prelude.{◌≤◌, length};
ghost use Rattle.tool_lines.specs.Limits.{most_numbers};

use axis::accept::least;
use fit::numbers::NUMBER_WORDS;
use fit::outcome::TOLD_WORDS;
use khsaemudol::khs_fit_axis;
use label_fit::glyph::{
    ASKED_WORDS, Glyph, asked_of, edge_words, edges_of, fonts_of, told_of, weak_of, words_of,
    zoned_of,
};
use label_fit::topo::segments;
use label_print::print::text;
use tool_lines::limits::MOST_NUMBERS;
use tool_lists::list::{list_at, part, put};
use words::segment::SEGMENT_WORDS;

// Fits what is lent of an axis of a glyph, whose edges have their zones and whose points are at their originals.
fn ask(
    glyph: Glyph,
    originals: &[i32],
    ends: &[u16],
    edges: &mut [i32],
    currents: &mut [i32],
    touched: &mut [u8],
    told: &mut [i32],
) -> u8 {
    let topo = words_of(glyph);
    let end = 2 + SEGMENT_WORDS * segments(&topo);
    let asked = asked_of(glyph);
    let words = &asked[0..ASKED_WORDS];
    let fonts = fonts_of(glyph);
    let weak = weak_of(glyph);
    let drawn = least(glyph.drawn, MOST_NUMBERS);
    khs_fit_axis(
        &topo[2..end],
        edges,
        part(words, 0, NUMBER_WORDS),
        list_at(words, NUMBER_WORDS),
        &fonts[0..drawn],
        originals,
        currents,
        touched,
        &weak[0..drawn],
        ends,
        told,
    )
}

// Whether the edges of a glyph, and what was told of them, are those that its steps left.
fn same_edges(glyph: Glyph, edges: &[i32], told: &[i32]) -> bool {
    let left = edges_of(glyph);
    let n = edge_words(glyph);
    edges == &left[0..n] && told == told_of(glyph).as_slice()
}

// Fits what is lent of an axis of a glyph, and tells whether it comes to what its steps left: its edges, what is told of them, and these currents and touch marks.
fn comes_to(
    glyph: Glyph,
    originals: &[i32],
    ends: &[u16],
    currents: &[i32],
    touched: &[u8],
    edges: &mut [i32],
    places: &mut [i32],
    marks: &mut [u8],
) -> bool {
    let mut told = [0i32; TOLD_WORDS];
    let answer = ask(glyph, originals, ends, edges, places, marks, &mut told);
    if 0 < answer {
        return false;
    }
    same_edges(glyph, edges, &told) && &*places == currents && &*marks == touched
}

// Writes whether one call leaves an axis of a glyph as its steps did, which have left these currents and touch marks.
pub fn once(glyph: Glyph, originals: &[i32], ends: &[u16], currents: &[i32], touched: &[u8])
    requires { length originals.now ≤ most_numbers }
{
    let n = edge_words(glyph);
    let m = originals.len();
    let mut edges = zoned_of(glyph);
    let mut places = [0i32; MOST_NUMBERS];
    put(&mut places, 0, originals);
    let mut marks = [0u8; MOST_NUMBERS];
    if comes_to(
        glyph,
        originals,
        ends,
        currents,
        touched,
        &mut edges[0..n],
        &mut places[0..m],
        &mut marks[0..m],
    ) {
        text(b"  one call  the same\n");
        return;
    }
    text(b"  one call  differs\n");
}
