// The search for the edge at or behind a font position, where the words of the edges stand.
ghost use Rattle.std.specs.Prelude.{◌≡◌, ◌<◌};
ghost use Rattle.axis.specs.Edge.{edge_at};
ghost use Rattle.words.specs.Edge.{edges_in};
ghost use Rattle.words_call.specs.Lent.{edges_of};
ghost use Rattle.words_edge.specs.Whole.{Whole};
ghost use Rattle.strong.specs.Strong.{one_by_one, by_halving, fpos_at, found};

use words::edge::EDGE_WORDS;
use words::word::read_word;

// How many edges are searched one by one: with equal font positions halving finds another edge, so that the number matters.
const MOST_ONE_BY_ONE: usize = 8;

// The font position of an edge.
pub fn read_fpos(words: &[i32], i: usize) -> i32
    requires { Whole words.now × (i < edges_in words.now) }
    ensures { result ≡ (edge_at (edges_of words.now) i).fpos }
{
    read_word(words, EDGE_WORDS * i)
}

// The first edge whose font position is not below u, or the number of edges.
fn one_by_one(words: &[i32], u: i32) -> usize
    requires { Whole words.now }
    ensures { result ≡ one_by_one (fpos_at (edges_of words.now)) u 0 (edges_in words.now) }
{
    let n = words.len() / EDGE_WORDS;
    for i in 0..n {
        if u <= read_fpos(words, i) {
            return i;
        }
    }
    n
}

// The first edge met on u by halving, or the one behind u.
fn by_halving(words: &[i32], u: i32) -> usize
    requires { Whole words.now }
    ensures { result ≡ by_halving (fpos_at (edges_of words.now)) u (edges_in words.now) 0 (edges_in words.now) }
{
    let mut low: usize = 0;
    let mut high = words.len() / EDGE_WORDS;
    // a while: the step depends on the element that is met
    while low < high {
        let mid = (low + high) / 2;
        let fpos = read_fpos(words, mid);
        if u < fpos {
            high = mid;
            continue;
        }
        if u == fpos {
            return mid;
        }
        low = mid + 1;
    }
    low
}

// The edge that is found for u.
pub fn find_edge(words: &[i32], u: i32) -> usize
    requires { Whole words.now }
    ensures { result ≡ found (edges_of words.now) u }
{
    if words.len() / EDGE_WORDS <= MOST_ONE_BY_ONE {
        return one_by_one(words, u);
    }
    by_halving(words, u)
}
