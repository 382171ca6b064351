// Strong points, call 131: from the words of its job to those of its answer.
ghost use Rattle.std.specs.Prelude.{◌≤◌, length};

use super::rooms::EDGES_ROOM;
use axis::accept::least;
use axis::limits::MOST_EDGES;
use khsaemudol::khs_align_strong_points;
use tool_lines::limits::MOST_NUMBERS;
use tool_lists::list::{nth_list, part, put, put_list, tail};
use tool_lists::number::{byte_word, put_bytes, read_bytes, read_shorts};
use words::edge::EDGE_WORDS;
use words::word::count_at;

// Aligns points by the font positions, the originals and the weak marks that are the first, the second and the last of five lists.
fn ask(edges: &[i32], lists: &[i32], currents: &mut [i32], touched: &mut [u8]) -> u8 {
    let positions = nth_list(lists, 0);
    let mut fonts = [0i16; MOST_NUMBERS];
    read_shorts(positions, &mut fonts);
    let marks = nth_list(lists, 4);
    let mut weak = [0u8; MOST_NUMBERS];
    read_bytes(marks, &mut weak);
    khs_align_strong_points(
        edges,
        &fonts[0..positions.len()],
        nth_list(lists, 1),
        currents,
        touched,
        &weak[0..marks.len()],
    )
}

// Aligns the points that are lent, and writes them behind the answer.
fn answer_lent(
    edges: &[i32],
    lists: &[i32],
    out: &mut [i32],
    currents: &mut [i32],
    touched: &mut [u8],
) -> usize
    ensures { result ≤ length out.old }
{
    let answer = ask(edges, lists, currents, touched);
    let at = put(out, 0, &[byte_word(answer)]);
    let at = put_list(out, at, currents.len(), currents);
    put_bytes(out, at, touched)
}

// The answer to a job of strong points: edges and five lists. Of more edges than their limit the call is lent one more than that, which is empty.
pub fn answer_strong(words: &[i32], out: &mut [i32]) -> usize
    ensures { result ≤ length out.old }
{
    let count = count_at(words, 1);
    let n = EDGE_WORDS * least(count, MOST_EDGES);
    let lists = tail(words, 1 + n);
    let given = nth_list(lists, 2);
    let marks = nth_list(lists, 3);
    let points = given.len();
    let marked = marks.len();
    let mut edges = [0i32; EDGES_ROOM];
    put(&mut edges, 0, part(words, 2, n));
    let mut currents = [0i32; MOST_NUMBERS];
    put(&mut currents, 0, given);
    let mut touched = [0u8; MOST_NUMBERS];
    read_bytes(marks, &mut touched);
    answer_lent(
        &edges[0..EDGE_WORDS * least(count, MOST_EDGES + 1)],
        lists,
        out,
        &mut currents[0..points],
        &mut touched[0..marked],
    )
}
