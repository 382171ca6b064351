// The one test of edges that a step can make fail for the next.
ghost use Rattle.std.specs.Prelude.{◌≡◌, ◌<◌};
ghost use Rattle.axis.specs.Edge.{edge_at};
ghost use Rattle.words.specs.Edge.{edges_in};
ghost use Rattle.words_call.specs.Lent.{edges_of};
ghost use Rattle.words_edge.specs.Whole.{Whole};
ghost use Rattle.fit_edges_words.specs.Row.{pos_holds, positions_hold};

use axis::accept::is_inside;
use axis::limits::{LEAST_POS, MOST_POS};
use words::edge::{EDGE_WORDS, POS_PLACE};
use words::word::read_word;

// Whether the position of edge i is accepted.
fn pos_holds(words: &[i32], i: usize) -> bool
    requires { Whole words.now × (i < edges_in words.now) }
    ensures { result ≡ pos_holds (edge_at (edges_of words.now) i) }
{
    is_inside(
        read_word(words, EDGE_WORDS * i + POS_PLACE),
        LEAST_POS,
        MOST_POS,
    )
}

// Whether that of every edge is.
pub fn positions_hold(words: &[i32]) -> bool
    requires { Whole words.now }
    ensures { result ≡ positions_hold (edges_of words.now) }
{
    let n = words.len() / EDGE_WORDS;
    for i in 0..n {
        if !pos_holds(words, i) {
            return false;
        }
    }
    true
}
