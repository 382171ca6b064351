// From edges to points, call 128: from the words of its job to those of its answer.
ghost use Rattle.std.specs.Prelude.{◌≤◌, length};

use super::rooms::{EDGES_ROOM, SEGMENTS_ROOM};
use axis::accept::least;
use axis::limits::{MOST_EDGES, MOST_SEGMENTS};
use khsaemudol::khs_align_edge_points;
use tool_lines::limits::MOST_NUMBERS;
use tool_lists::list::{nth_list, part, put, put_list, tail};
use tool_lists::number::{byte_word, put_bytes, read_bytes, read_indices};
use words::edge::EDGE_WORDS;
use words::segment::SEGMENT_WORDS;
use words::word::{count_at, word_at};

// Moves points by the choices that are the first two of these words, and the contour ends that are their third list.
fn ask(
    segments: &[i32],
    edges: &[i32],
    words: &[i32],
    currents: &mut [i32],
    touched: &mut [u8],
) -> u8 {
    let ends = nth_list(tail(words, 1), 2);
    let mut contours = [0u16; MOST_NUMBERS];
    read_indices(ends, &mut contours);
    khs_align_edge_points(
        segments,
        edges,
        word_at(words, 0),
        word_at(words, 1),
        currents,
        touched,
        &contours[0..ends.len()],
    )
}

// Moves the points that are lent, and writes them behind the answer.
fn answer_lent(
    segments: &[i32],
    edges: &[i32],
    words: &[i32],
    out: &mut [i32],
    currents: &mut [i32],
    touched: &mut [u8],
) -> usize
    ensures { result ≤ length out.old }
{
    let answer = ask(segments, edges, words, currents, touched);
    let at = put(out, 0, &[byte_word(answer)]);
    let at = put_list(out, at, currents.len(), currents);
    put_bytes(out, at, touched)
}

// The answer to a job of edge points: segments, edges, two choices and three lists. Of more records than their limit the call is lent one more than that, which is empty.
pub fn answer_edge_points(words: &[i32], out: &mut [i32]) -> usize
    ensures { result ≤ length out.old }
{
    let given = count_at(words, 1);
    let n = SEGMENT_WORDS * least(given, MOST_SEGMENTS);
    let rest = tail(words, 2 + n);
    let owned = count_at(rest, 0);
    let m = EDGE_WORDS * least(owned, MOST_EDGES);
    let choices = tail(rest, 1 + m);
    let points = nth_list(tail(choices, 1), 0);
    let marks = nth_list(tail(choices, 1), 1);
    let placed = points.len();
    let marked = marks.len();
    let mut segments = [0i32; SEGMENTS_ROOM];
    put(&mut segments, 0, part(words, 2, n));
    let mut edges = [0i32; EDGES_ROOM];
    put(&mut edges, 0, part(rest, 1, m));
    let mut currents = [0i32; MOST_NUMBERS];
    put(&mut currents, 0, points);
    let mut touched = [0u8; MOST_NUMBERS];
    read_bytes(marks, &mut touched);
    answer_lent(
        &segments[0..SEGMENT_WORDS * least(given, MOST_SEGMENTS + 1)],
        &edges[0..EDGE_WORDS * least(owned, MOST_EDGES + 1)],
        choices,
        out,
        &mut currents[0..placed],
        &mut touched[0..marked],
    )
}
