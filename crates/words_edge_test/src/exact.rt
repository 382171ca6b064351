// Which test of edges fails, on their words: each test is that of the table that they are read as.
ghost use Rattle.std.specs.Prelude.{◌≡◌};
ghost use Rattle.axis.specs.Refusals.{every_edge, edge_passes, edges_indices, edges_numbers};
ghost use Rattle.words_call.specs.Lent.{edges_of};

use axis::accept::{EdgeTest, edge_passes};
use axis::limits::MOST_EDGES;
use words::edge::{EDGE_WORDS, edge_from};

// Whether every edge passes a test.
pub fn every_edge(words: &[i32], test: EdgeTest) -> bool
    ensures { result ≡ every_edge (edge_passes test) (edges_of words.now) }
{
    let n = (words.len() / EDGE_WORDS).min(MOST_EDGES);
    for i in 0..n {
        let edge = edge_from(words, EDGE_WORDS * i);
        if !edge_passes(edge, test) {
            return false;
        }
    }
    true
}

// Whether link and serif of every edge are edges.
pub fn indices_hold(words: &[i32]) -> bool
    ensures { result ≡ edges_indices (edges_of words.now) }
{
    every_edge(words, EdgeTest::Indices(words.len() / EDGE_WORDS))
}

// Whether the positions of every edge are accepted.
pub fn numbers_hold(words: &[i32]) -> bool
    ensures { result ≡ edges_numbers (edges_of words.now) }
{
    every_edge(words, EdgeTest::Numbers)
}
