// Segments learn their edges (the Rust's `link_segments_to_edges`), once these have their places.
ghost use Rattle.std.specs.Prelude.{◌≡◌, true, ◌<◌, Some};
ghost use Rattle.axis.specs.Limits.{most_edges, most_segments};
ghost use Rattle.axis.specs.Ring.{walk, ends};
ghost use Rattle.build_join.specs.Walks.{next_in};
ghost use Rattle.build_mark.specs.Marks.{cleared, marks};
ghost use Rattle.words.specs.Segment.{segments_in};
ghost use Rattle.words_segment.specs.Whole.{Whole, Became, ringing};
ghost use Rattle.build_mark_words.specs.Marking.{RingsIn, marked_by};

use axis::limits::{MOST_EDGES, MOST_SEGMENTS};
use words::segment::SEGMENT_WORDS;
use words_segment::segment::put_ring;

// Takes the edge and the next of every segment.
fn forget_in(words: &mut [i32])
    requires { Whole words.old }
    ensures { Became cleared words.old words.new }
{
    let count = words.len() / SEGMENT_WORDS;
    for i in 0..count {
        put_ring(words, i, None, None);
    }
}

// Makes a segment a member of an edge, with the segment behind it.
fn member_in(words: &mut [i32], i: usize, edge: u16, next: u16)
    requires { Whole words.old × (i < segments_in words.old) × (edge < most_edges) }
    ensures { Became (ringing i (Some edge) (Some next)) words.old words.new }
{
    put_ring(words, i, Some(edge), Some(next));
}

// Gives each segment of an edge's ring, from the first to the last, the edge's index and its next.
fn mark_ring_in(words: &mut [i32], next: &[u16; MOST_SEGMENTS], edge: u16, first: u16, last: u16)
    requires { Whole words.old × (edge < most_edges) × (first < segments_in words.old) × (ends (next_in next.now) (segments_in words.old) last most_segments first ≡ true) }
    ensures { Became (marks next.now edge (walk (next_in next.now) last most_segments first)) words.old words.new }
{
    let mut ix = first;
    // a loop: the next segment is read from the ring
    loop {
        let at = ix as usize;
        let after = next[at];
        member_in(words, at, edge, after);
        if ix == last {
            return;
        }
        ix = after;
    }
}

// Each segment of an edge's ring gets the edge's index and its next; the others have neither.
pub fn mark_in(
    words: &mut [i32],
    first: &[u16; MOST_EDGES],
    last: &[u16; MOST_EDGES],
    next: &[u16; MOST_SEGMENTS],
    count: usize,
)
    requires { Whole words.old × RingsIn (segments_in words.old) first.now last.now next.now count }
    ensures { Became (marked_by first.now last.now next.now count) words.old words.new }
{
    forget_in(words);
    for edge_ix in 0..count {
        mark_ring_in(words, next, edge_ix as u16, first[edge_ix], last[edge_ix]);
    }
}
