// What is there: segments linked, and edges built from them.
ghost use Rattle.std.specs.Prelude.{◌+◌, ◌≤◌};
ghost use Rattle.axis.specs.Limits.{most_segments};

use super::glyph::{Glyph, stopped};
use axis::accept::least;
use axis::limits::MOST_SEGMENTS;
use khsaemudol::{khs_compute_edges, khs_link_segments_cjk};
use label_print::edges::changes;
use label_print::print::{refused, show, text};
use tool_lines::limits::MOST_WORDS;
use words::edge::TABLE_WORDS;
use words::segment::{LINK_PLACE, SEGMENT_WORDS};
use words::word::{count_word, size_of, word_at};

// One segment more than a call takes.
const TOO_MANY: usize = MOST_SEGMENTS + 1;

// The words from a place on.
pub fn tail(words: &[i32], at: usize) -> &[i32] {
    if at < words.len() {
        return &words[at..];
    }
    &words[..0]
}

// How many segments a job has: at most one more than a call takes.
pub fn segments(words: &[i32]) -> usize
    ensures { result ≤ most_segments + 1 }
{
    least(size_of(word_at(words, 1)), TOO_MANY)
}

// Writes the stem that a segment is linked to, at the first of its two sides.
fn pair(words: &[i32], i: usize)
    requires { i ≤ most_segments }
{
    let link = word_at(words, 2 + SEGMENT_WORDS * i + LINK_PLACE);
    let n = count_word(i);
    if n < link {
        show(b", # with #", &[n, link]);
    }
}

// Writes all stems.
fn pairs(words: &[i32]) {
    for i in 0..segments(words) {
        pair(words, i);
    }
}

// The glyph with the segments that were linked, which are written.
fn paired(mut glyph: Glyph, topo: [i32; MOST_WORDS]) -> Glyph {
    show(b"# segments", &[word_at(&topo, 1)]);
    pairs(&topo);
    text(b"\n");
    glyph.topo = topo;
    glyph
}

// Links the segments of a job.
pub fn link(words: [i32; MOST_WORDS], glyph: Glyph) -> Glyph {
    let mut topo = words;
    let end = 2 + SEGMENT_WORDS * segments(&words);
    let numbers = tail(&words, end);
    let answer = khs_link_segments_cjk(
        &mut topo[2..end],
        word_at(numbers, 0),
        word_at(numbers, 1),
        word_at(numbers, 2),
    );
    if refused(b"  linking   ", answer) {
        return stopped(glyph);
    }
    paired(glyph, topo)
}

// The words that have the segments: the job's, or those that linking handed on where the job has none.
fn topo_of(words: [i32; MOST_WORDS], glyph: Glyph) -> [i32; MOST_WORDS] {
    if segments(&words) == 0 {
        let topo = glyph.topo;
        return topo;
    }
    words
}

// Begins the line of building, by the axis, and tells whether it was refused.
fn unbuilt(dim: i32, answer: u8) -> bool {
    if dim == 0 {
        return refused(b"  widths    ", answer);
    }
    refused(b"  heights   ", answer)
}

// The glyph with the edges that were built on an axis, which are written.
fn built(
    mut glyph: Glyph,
    dim: i32,
    topo: [i32; MOST_WORDS],
    edges: [i32; TABLE_WORDS],
    count: i32,
) -> Glyph {
    show(b"# segments make # edges", &[word_at(&topo, 1), count]);
    let n = size_of(count);
    if 0 < n {
        text(b", at");
    }
    changes(&[], &edges, n);
    text(b"\n");
    glyph.dim = dim;
    glyph.topo = topo;
    glyph.edges = edges;
    glyph.count = n;
    glyph.anchor = -1;
    glyph
}

// Builds the edges of an axis of a glyph. The job has no old edges.
pub fn build(words: [i32; MOST_WORDS], glyph: Glyph) -> Glyph {
    let mut topo = topo_of(words, glyph);
    let end = 2 + SEGMENT_WORDS * segments(&topo);
    let numbers = tail(&words, 3 + SEGMENT_WORDS * segments(&words));
    let dim = word_at(numbers, 0);
    let mut edges = [0i32; TABLE_WORDS];
    let mut count = 0;
    let answer = khs_compute_edges(
        &mut topo[2..end],
        &mut edges,
        dim,
        word_at(numbers, 1),
        word_at(numbers, 2),
        word_at(numbers, 3),
        word_at(numbers, 4),
        word_at(numbers, 5),
        word_at(numbers, 6),
        word_at(numbers, 7),
        &mut count,
    );
    if unbuilt(dim, answer) {
        return stopped(glyph);
    }
    built(glyph, dim, topo, edges, count)
}
