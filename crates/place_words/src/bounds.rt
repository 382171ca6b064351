// The edges that bound an edge.
ghost use Rattle.std.specs.Prelude.{◌≡◌, ◌<◌};
ghost use Rattle.place.specs.Placing.{upper_bound, neighbour};
ghost use Rattle.words.specs.Edge.{edges_in};
ghost use Rattle.words_call.specs.Lent.{edges_of};
ghost use Rattle.words_edge.specs.Whole.{Whole};

use place::adjust::LinkDir;
use place::bounds::lower_bound;
use words::edge::EDGE_WORDS;
use words_edge::edge::read_edge;

// The edge behind, where there is one and it is done.
pub fn upper_in(words: &[i32], edge: usize) -> Option<u16>
    requires { Whole words.now × (edge < edges_in words.now) }
    ensures { result ≡ upper_bound (edges_of words.now) edge }
{
    let next = edge + 1;
    if words.len() / EDGE_WORDS <= next {
        return None;
    }
    let behind = read_edge(words, next);
    if behind.flags.done {
        return Some(next as u16);
    }
    None
}

// The neighbour that an edge is held to, where there is one; a next one that is not done is none.
pub fn neighbour_in(words: &[i32], edge: usize, dir: LinkDir) -> Option<u16>
    requires { Whole words.now × (edge < edges_in words.now) }
    ensures { result ≡ neighbour dir (edges_of words.now) edge }
{
    match dir {
        LinkDir::Prev => lower_bound(edge),
        LinkDir::Next => upper_in(words, edge),
    }
}
