// The points of an axis: those of the edges placed with them, strong ones by the edges around them, the others aligned.
ghost use Rattle.std.specs.Prelude.{◌≤◌, length};
ghost use Rattle.tool_lines.specs.Limits.{most_numbers};

use axis::accept::least;
use khsaemudol::{khs_align_edge_points, khs_align_strong_points, khs_align_weak_points};
use label_fit::edges::{DONE_ALONE, SNAP};
use label_fit::glyph::{
    Glyph, edge_words, edges_of, fonts_of, settled, stopped, weak_of, words_of,
};
use label_fit::topo::segments;
use label_one::once::once;
use label_print::print::{refused, show};
use tool_lines::limits::MOST_NUMBERS;
use tool_lists::list::{nth_list, put};
use tool_lists::number::{read_bytes, read_indices, read_shorts};
use words::segment::SEGMENT_WORDS;
use words::word::count_word;

// How many points are touched.
fn touched_of(touched: &[u8]) -> usize {
    touched.iter().filter(|mark| **mark != 0).count()
}

// How many more there are than before.
fn more(now: usize, before: usize) -> usize {
    if now < before {
        return 0;
    }
    now - before
}

// Moves the points of edges with these, which are counted, then the strong ones, and aligns the others; the answer is the first refusal, or 0.
fn align(
    fonts: &[i16],
    weak: &[u8],
    originals: &[i32],
    segments: &[i32],
    edges: &[i32],
    ends: &[u16],
    currents: &mut [i32],
    touched: &mut [u8],
    placed: &mut usize,
) -> u8 {
    let answer = khs_align_edge_points(segments, edges, SNAP, DONE_ALONE, currents, touched, ends);
    if 0 < answer {
        return answer;
    }
    *placed = touched_of(touched);
    let answer = khs_align_strong_points(edges, fonts, originals, currents, touched, weak);
    if 0 < answer {
        return answer;
    }
    khs_align_weak_points(originals, currents, touched, ends)
}

// The same, told: whether it was done.
fn aligned(
    fonts: &[i16],
    weak: &[u8],
    originals: &[i32],
    segments: &[i32],
    edges: &[i32],
    ends: &[u16],
    currents: &mut [i32],
    touched: &mut [u8],
) -> bool {
    let mut placed: usize = 0;
    let answer = align(
        fonts,
        weak,
        originals,
        segments,
        edges,
        ends,
        currents,
        touched,
        &mut placed,
    );
    if refused(b"  points    ", answer) {
        return false;
    }
    let numbers = [
        count_word(placed),
        count_word(originals.len()),
        count_word(more(touched_of(touched), placed)),
    ];
    show(
        b"# of # placed with their edges, # by the edges around them, the others aligned\n",
        &numbers,
    );
    true
}

// The glyph with what a job of strong points tells: where points are drawn, and which are weak. They are placed by the next job.
pub fn strong(words: &[i32], mut glyph: Glyph) -> Glyph {
    let positions = nth_list(words, 1);
    let mut fonts = [0i16; MOST_NUMBERS];
    read_shorts(positions, &mut fonts);
    let mut weak = [0u8; MOST_NUMBERS];
    read_bytes(nth_list(words, 5), &mut weak);
    glyph.fonts = fonts;
    glyph.weak = weak;
    glyph.drawn = positions.len();
    glyph
}

// Fits the points of an axis, which start at their originals, and writes whether one call comes to the same; tells whether it was done.
fn fits(
    glyph: Glyph,
    originals: &[i32],
    ends: &[u16],
    currents: &mut [i32],
    touched: &mut [u8],
) -> bool
    requires { length originals.now ≤ most_numbers }
{
    let topo = words_of(glyph);
    let end = 2 + SEGMENT_WORDS * segments(&topo);
    let edges = edges_of(glyph);
    let fonts = fonts_of(glyph);
    let weak = weak_of(glyph);
    let drawn = least(glyph.drawn, MOST_NUMBERS);
    if aligned(
        &fonts[0..drawn],
        &weak[0..drawn],
        originals,
        &topo[2..end],
        &edges[0..edge_words(glyph)],
        ends,
        currents,
        touched,
    ) {
        once(glyph, originals, ends, currents, touched);
        return true;
    }
    false
}

// Fits the points of a job.
pub fn weak(words: &[i32], glyph: Glyph) -> Glyph {
    let originals = nth_list(words, 0);
    let n = originals.len();
    let contours = nth_list(words, 3);
    let mut ends = [0u16; MOST_NUMBERS];
    read_indices(contours, &mut ends);
    let mut old = [0i32; MOST_NUMBERS];
    put(&mut old, 0, originals);
    let mut currents = old;
    let mut touched = [0u8; MOST_NUMBERS];
    if fits(
        glyph,
        originals,
        &ends[0..contours.len()],
        &mut currents[0..n],
        &mut touched[0..n],
    ) {
        return settled(glyph, old, currents);
    }
    stopped(glyph)
}
