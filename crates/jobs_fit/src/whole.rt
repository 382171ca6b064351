// An axis in one call, call 129: from the words of its job to those of its answer.
ghost use Rattle.std.specs.Prelude.{◌≤◌, length};

use super::rooms::{EDGES_ROOM, SEGMENTS_ROOM};
use axis::accept::least;
use axis::limits::{MOST_EDGES, MOST_SEGMENTS};
use fit::numbers::{NUMBER_WORDS, numbers_shown};
use fit::outcome::TOLD_WORDS;
use khsaemudol::khs_fit_axis;
use tool_lines::limits::MOST_NUMBERS;
use tool_lists::list::{nth_list, part, put, put_list, tail};
use tool_lists::number::{byte_word, put_bytes, read_bytes, read_indices, read_shorts};
use words::edge::EDGE_WORDS;
use words::segment::SEGMENT_WORDS;
use words::word::count_at;

// What is told beside a refusal: no counts, no pair and no anchor.
const NOTHING_TOLD: [i32; TOLD_WORDS] = [0, 0, 0, -1, -1, 0, 0, 0, -1];

// Fits by the lists of a job: numbers, standards, font positions, originals, currents, touch marks, weak marks and contour ends, of which the fifth and the sixth are lent.
fn ask(
    segments: &[i32],
    edges: &mut [i32],
    lists: &[i32],
    currents: &mut [i32],
    touched: &mut [u8],
    told: &mut [i32],
) -> u8 {
    let positions = nth_list(lists, 2);
    let mut fonts = [0i16; MOST_NUMBERS];
    read_shorts(positions, &mut fonts);
    let marks = nth_list(lists, 6);
    let mut weak = [0u8; MOST_NUMBERS];
    read_bytes(marks, &mut weak);
    let ends = nth_list(tail(lists, 1 + NUMBER_WORDS), 6);
    let mut contours = [0u16; MOST_NUMBERS];
    read_indices(ends, &mut contours);
    khs_fit_axis(
        segments,
        edges,
        nth_list(lists, 0),
        nth_list(lists, 1),
        &fonts[0..positions.len()],
        nth_list(lists, 3),
        currents,
        touched,
        &weak[0..marks.len()],
        &contours[0..ends.len()],
        told,
    )
}

// Fits the axis that is lent, and writes what is left of it behind the answer; of so many edges the first words are those of a job.
fn answer_lent(
    segments: &[i32],
    edges: &mut [i32],
    count: usize,
    lists: &[i32],
    out: &mut [i32],
    currents: &mut [i32],
    touched: &mut [u8],
) -> usize
    ensures { result ≤ length out.old }
{
    let mut told = NOTHING_TOLD;
    let answer = ask(segments, edges, lists, currents, touched, &mut told);
    let at = put(out, 0, &[byte_word(answer)]);
    let at = put(out, at, &told);
    let at = put_list(
        out,
        at,
        count,
        part(edges, 0, EDGE_WORDS * least(count, MOST_EDGES)),
    );
    let at = put_list(out, at, currents.len(), currents);
    put_bytes(out, at, touched)
}

// The answer to a job of an axis: segments, edges and eight lists, of which the first has exactly the numbers of an axis, each within its field's values. Of more records than their limit the
// call is lent one more than that, which is empty.
pub fn answer_fit(words: &[i32], out: &mut [i32]) -> usize
    ensures { result ≤ length out.old }
{
    let given = count_at(words, 1);
    let n = SEGMENT_WORDS * least(given, MOST_SEGMENTS);
    let rest = tail(words, 2 + n);
    let owned = count_at(rest, 0);
    let m = EDGE_WORDS * least(owned, MOST_EDGES);
    let lists = tail(rest, m);
    let numbers = nth_list(lists, 0);
    if numbers.len() != NUMBER_WORDS {
        return put(out, 0, &[-1]);
    }
    if !numbers_shown(numbers) {
        return put(out, 0, &[-1]);
    }
    let points = nth_list(lists, 4);
    let marks = nth_list(lists, 5);
    let placed = points.len();
    let marked = marks.len();
    let mut segments = [0i32; SEGMENTS_ROOM];
    put(&mut segments, 0, part(words, 2, n));
    let mut edges = [0i32; EDGES_ROOM];
    put(&mut edges, 0, part(rest, 1, m));
    let mut currents = [0i32; MOST_NUMBERS];
    put(&mut currents, 0, points);
    let mut touched = [0u8; MOST_NUMBERS];
    read_bytes(marks, &mut touched);
    answer_lent(
        &segments[0..SEGMENT_WORDS * least(given, MOST_SEGMENTS + 1)],
        &mut edges[0..EDGE_WORDS * least(owned, MOST_EDGES + 1)],
        owned,
        lists,
        out,
        &mut currents[0..placed],
        &mut touched[0..marked],
    )
}
