// The done edges around an edge (the Rust's `find_bounding_completed_edges`), and a serif that is near.
ghost use Rattle.std.specs.Prelude.{◌≡◌, ◌<◌};
ghost use Rattle.axis.specs.Edge.{edge_at};
ghost use Rattle.axis.specs.Limits.{most_pos};
ghost use Rattle.axis.specs.Accepted.{AxisWithin};
ghost use Rattle.words.specs.Edge.{edges_in};
ghost use Rattle.words_call.specs.Lent.{edges_of};
ghost use Rattle.words_edge.specs.Whole.{Whole};
ghost use Rattle.remaining.specs.Remaining.{done_before, done_behind, near_of};

use super::read::read_edge;
use remaining::plan::is_near;
use words::edge::EDGE_WORDS;

// Whether an edge is done.
pub fn is_done(words: &[i32], i: usize) -> bool
    requires { Whole words.now × (i < edges_in words.now) }
    ensures { result ≡ (edge_at (edges_of words.now) i).flags.done }
{
    let edge = read_edge(words, i);
    edge.flags.done
}

// The nearest done edge before an edge.
pub fn done_before(words: &[i32], i: usize) -> Option<u16>
    requires { Whole words.now × (i < edges_in words.now) }
    ensures { result ≡ done_before (edges_of words.now) i }
{
    for k in (0..i).rev() {
        if is_done(words, k) {
            return Some(k as u16);
        }
    }
    None
}

// The nearest done edge behind an edge.
pub fn done_behind(words: &[i32], i: usize) -> Option<u16>
    requires { Whole words.now × (i < edges_in words.now) }
    ensures { result ≡ done_behind (edges_of words.now) i }
{
    let n = words.len() / EDGE_WORDS;
    for k in i + 1..n {
        if is_done(words, k) {
            return Some(k as u16);
        }
    }
    None
}

// The edge whose serif an edge is, where that is near enough for Latin.
pub fn near_serif(words: &[i32], i: usize) -> Option<u16>
    requires { Whole words.now × AxisWithin most_pos (edges_of words.now) × (i < edges_in words.now) }
    ensures { result ≡ near_of (edges_of words.now) i (edge_at (edges_of words.now) i).serif }
{
    let edge = read_edge(words, i);
    let serif = edge.serif;
    let Some(k) = serif else {
        return None;
    };
    let base = read_edge(words, k as usize);
    if is_near(edge, base) {
        return Some(k);
    }
    None
}
