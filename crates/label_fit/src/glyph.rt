// A glyph on its way through the chain.
ghost use Rattle.std.specs.Prelude.{◌≤◌};
ghost use Rattle.words.specs.Edge.{table_size};

use axis::accept::least;
use axis::limits::MOST_EDGES;
use fit::numbers::NUMBER_WORDS;
use fit::outcome::TOLD_WORDS;
use tool_lines::limits::{MOST_NUMBERS, MOST_WORDS};
use words::edge::{EDGE_WORDS, TABLE_WORDS};

// The numbers that an axis is fitted with, and behind them a count and the most standards that a width rule takes.
pub const ASKED_WORDS: usize = NUMBER_WORDS + 1 + 16;

// What the steps hand on: the axis that is being fitted, as the building job names it; the words of the job that has its segments, as the last step left them; the
// words of its edges as they were with their zones, as the last step left them, and how many there are; the numbers and standards that they are fitted with; how many of
// them the stems passed over; its anchor; these two behind what the guard has told; where its points are drawn, which of them are weak, and how many there are; where
// the points were and where they came to, on both axes; and whether a step refused what it was given.
#[derive(Clone, Copy)]
pub struct Glyph {
    pub dim: i32,
    pub topo: [i32; MOST_WORDS],
    pub zoned: [i32; TABLE_WORDS],
    pub edges: [i32; TABLE_WORDS],
    pub count: usize,
    pub asked: [i32; ASKED_WORDS],
    pub passed: i32,
    pub anchor: i32,
    pub told: [i32; TOLD_WORDS],
    pub fonts: [i16; MOST_NUMBERS],
    pub weak: [u8; MOST_NUMBERS],
    pub drawn: usize,
    pub old_xs: [i32; MOST_NUMBERS],
    pub old_ys: [i32; MOST_NUMBERS],
    pub xs: [i32; MOST_NUMBERS],
    pub ys: [i32; MOST_NUMBERS],
    pub refused: bool,
}

impl Glyph {
    // A glyph of which nothing is known yet.
    pub fn new() -> Glyph {
        Glyph {
            dim: 0,
            topo: [0; MOST_WORDS],
            zoned: [0; TABLE_WORDS],
            edges: [0; TABLE_WORDS],
            count: 0,
            asked: [0; ASKED_WORDS],
            passed: 0,
            anchor: -1,
            told: [0; TOLD_WORDS],
            fonts: [0; MOST_NUMBERS],
            weak: [0; MOST_NUMBERS],
            drawn: 0,
            old_xs: [0; MOST_NUMBERS],
            old_ys: [0; MOST_NUMBERS],
            xs: [0; MOST_NUMBERS],
            ys: [0; MOST_NUMBERS],
            refused: false,
        }
    }
}

// The glyph that a step refused.
pub fn stopped(mut glyph: Glyph) -> Glyph {
    glyph.refused = true;
    glyph
}

// The glyph with the points of the axis that is being fitted where they were and where they came to.
pub fn settled(mut glyph: Glyph, old: [i32; MOST_NUMBERS], points: [i32; MOST_NUMBERS]) -> Glyph {
    if glyph.dim == 0 {
        glyph.old_xs = old;
        glyph.xs = points;
        return glyph;
    }
    glyph.old_ys = old;
    glyph.ys = points;
    glyph
}

// The words of the job that has a glyph's segments, as an array whose length a caller knows.
pub fn words_of(glyph: Glyph) -> [i32; MOST_WORDS] {
    let topo = glyph.topo;
    topo
}

// The edges of a glyph, as an array whose length a caller knows.
pub fn edges_of(glyph: Glyph) -> [i32; TABLE_WORDS] {
    let edges = glyph.edges;
    edges
}

// The edges of a glyph with their zones, as they were before they were fitted.
pub fn zoned_of(glyph: Glyph) -> [i32; TABLE_WORDS] {
    let zoned = glyph.zoned;
    zoned
}

// The numbers and standards that the edges of a glyph are fitted with.
pub fn asked_of(glyph: Glyph) -> [i32; ASKED_WORDS] {
    let asked = glyph.asked;
    asked
}

// What the steps told of the edges of a glyph.
pub fn told_of(glyph: Glyph) -> [i32; TOLD_WORDS] {
    let told = glyph.told;
    told
}

// Where the points of a glyph are drawn.
pub fn fonts_of(glyph: Glyph) -> [i16; MOST_NUMBERS] {
    let fonts = glyph.fonts;
    fonts
}

// Which points of a glyph are weak.
pub fn weak_of(glyph: Glyph) -> [u8; MOST_NUMBERS] {
    let weak = glyph.weak;
    weak
}

// Where the points were on the horizontal axis.
pub fn old_xs_of(glyph: Glyph) -> [i32; MOST_NUMBERS] {
    let xs = glyph.old_xs;
    xs
}

// Where the points were on the vertical axis.
pub fn old_ys_of(glyph: Glyph) -> [i32; MOST_NUMBERS] {
    let ys = glyph.old_ys;
    ys
}

// Where the points came to on the horizontal axis.
pub fn xs_of(glyph: Glyph) -> [i32; MOST_NUMBERS] {
    let xs = glyph.xs;
    xs
}

// Where the points came to on the vertical axis.
pub fn ys_of(glyph: Glyph) -> [i32; MOST_NUMBERS] {
    let ys = glyph.ys;
    ys
}

// How many words the edges of a glyph are.
pub fn edge_words(glyph: Glyph) -> usize
    ensures { result ≤ table_size }
{
    EDGE_WORDS * least(glyph.count, MOST_EDGES)
}
