// The guard, call 127: from the words of its job to those of its answer.
ghost use Rattle.std.specs.Prelude.{◌≤◌, length};

use axis::accept::least;
use axis::limits::MOST_EDGES;
use khsaemudol::khs_lost_gaps;
use tool_lists::list::{part, put};
use tool_values::guard::ask_guard;
use words::edge::EDGE_WORDS;
use words::word::{count_at, word_at};

// The words of one edge more than the limit.
const ROOM: usize = EDGE_WORDS * (MOST_EDGES + 1);

// What the library answers: the answer, the count of lost gaps, the two edges of the first lost pair, its widths before and after, the count of lost stems, and that of edges not done.
fn ask_library(edges: &[i32], width: i32, linked: i32) -> [i32; 8] {
    let mut count = 0;
    let mut first = -1;
    let mut second = -1;
    let mut before = 0;
    let mut after = 0;
    let mut stems = 0;
    let mut not_done = 0;
    let answer = khs_lost_gaps(
        edges,
        width,
        linked,
        &mut count,
        &mut first,
        &mut second,
        &mut before,
        &mut after,
        &mut stems,
        &mut not_done,
    );
    [
        answer as i32,
        count,
        first,
        second,
        before,
        after,
        stems,
        not_done,
    ]
}

// The same by value, or by the library.
fn ask(by_value: bool, edges: &[i32], width: i32, linked: i32) -> [i32; 8] {
    if by_value {
        return ask_guard(edges, width, linked);
    }
    ask_library(edges, width, linked)
}

// The answer to a job of the guard: edges, the least width, and whether links are asked for. Of more edges than the limit the call is lent one more than that, which is empty.
pub fn answer_gaps(by_value: bool, words: &[i32], out: &mut [i32]) -> usize
    ensures { result ≤ length out.old }
{
    let given = count_at(words, 1);
    let n = EDGE_WORDS * least(given, MOST_EDGES);
    let lent = EDGE_WORDS * least(given, MOST_EDGES + 1);
    let mut edges = [0i32; ROOM];
    put(&mut edges, 0, part(words, 2, n));
    let found = ask(
        by_value,
        &edges[0..lent],
        word_at(words, 2 + n),
        word_at(words, 3 + n),
    );
    put(out, 0, &found)
}
