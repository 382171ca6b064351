// The lowercase m rule on a lent list, call 114: from the words of its job to those of its answer.
ghost use Rattle.std.specs.Prelude.{◌≤◌, length};
ghost use Rattle.jobs.specs.Limits.{most_lent};

use super::first::{MOST_LENT, hint_first};
use axis::accept::least;
use axis::edge::{EMPTY_EDGE, Edge};
use tool_lists::list::put;
use words::edge::{EDGE_WORDS, edge_from, edge_words};
use words::field::group_of;
use words::word::{count_at, count_word, word_at};

// The first n edges of a job.
fn edges_from(words: &[i32], n: usize) -> [Edge; MOST_LENT]
    requires { n ≤ most_lent }
{
    let mut edges = [EMPTY_EDGE; MOST_LENT];
    for i in 0..n {
        edges[i] = edge_from(words, 2 + EDGE_WORDS * i);
    }
    edges
}

// Writes the first n edges from a place on, and tells the place behind them.
fn put_edges(out: &mut [i32], at: usize, edges: [Edge; MOST_LENT], n: usize) -> usize
    requires { (n ≤ most_lent) × (at ≤ length out.old) }
    ensures { result ≤ length out.old }
{
    let mut here = at;
    for i in 0..n {
        let words = edge_words(edges[i]);
        here = put(out, here, &words);
    }
    here
}

// The answer to a job of the m rule on a lent list: a count and as many edges, and a group.
pub fn answer_lent(words: &[i32], out: &mut [i32]) -> usize
    ensures { result ≤ length out.old }
{
    let n = least(count_at(words, 1), MOST_LENT);
    let group = group_of(word_at(words, 2 + EDGE_WORDS * n));
    let edges = edges_from(words, n);
    let hinted = hint_first(edges, n, group);
    let moved = hinted.edges;
    let at = put(out, 0, &[hinted.answer as i32, count_word(n)]);
    put_edges(out, at, moved, n)
}
