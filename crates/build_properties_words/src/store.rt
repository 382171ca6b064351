// What becomes of an edge, where the words of the edges stand.
ghost use Rattle.std.specs.Prelude.{◌≡◌, ◌<◌};
ghost use Rattle.axis.specs.Accepted.{Below};
ghost use Rattle.axis.specs.Edge.{edge_at};
ghost use Rattle.build_properties.specs.Properties.{chosen, set_serif};
ghost use Rattle.words.specs.Edge.{edges_in};
ghost use Rattle.words_call.specs.Lent.{edges_of};
ghost use Rattle.words_edge.specs.Whole.{Whole, Became};
ghost use Rattle.build_properties_words.specs.Steps.{Joined, taking_serif, taking_link, ending};

use axis::edge::{EMPTY_EDGE, Edge};
use build_properties::join::distance;
use build_properties::outcome::with_properties;
use words::edge::{EDGE_WORDS, LINK_PLACE, SERIF_PLACE};
use words::field::{link_of, short_of};
use words::word::read_word;
use words_edge::edge::{put_flags, put_link, put_serif, read_flags};

// The edge that edge k is to have: the one asked for, where it holds none or where the segments are nearer than the edges.
fn chosen_in(edges: &[i32], k: usize, delta: i32, asked: u16, held: Option<u16>) -> u16
    requires { Whole edges.now × (k < edges_in edges.now) × Below (edges_in edges.now) held }
    ensures { result ≡ chosen (edges_of edges.now) (edge_at (edges_of edges.now) k) delta asked held }
{
    let Some(other) = held else {
        return asked;
    };
    let here = short_of(read_word(edges, EDGE_WORDS * k));
    let there = short_of(read_word(edges, EDGE_WORDS * (other as usize)));
    if delta < distance(here, there) {
        return asked;
    }
    other
}

// Marks an edge as one that has a serif.
fn mark_in(edges: &mut [i32], k: usize)
    requires { Whole edges.old × (k < edges_in edges.old) }
    ensures { Became (set_serif k) edges.old edges.new }
{
    let mut flags = read_flags(edges, k);
    flags.serif = true;
    put_flags(edges, k, flags);
}

// Joins edge k as a serif to the edge asked for or the one that it has, and marks that one.
pub fn take_serif(edges: &mut [i32], k: usize, delta: i32, asked: u16)
    requires { Joined edges.old k × (asked < edges_in edges.old) }
    ensures { Became (taking_serif k delta asked) edges.old edges.new }
{
    let held = link_of(read_word(edges, EDGE_WORDS * k + SERIF_PLACE));
    let chosen = chosen_in(edges, k, delta, asked, held);
    put_serif(edges, k, Some(chosen));
    mark_in(edges, chosen as usize);
}

// Links edge k to the edge asked for or the one that it has.
pub fn take_link(edges: &mut [i32], k: usize, delta: i32, asked: u16)
    requires { Joined edges.old k × (asked < edges_in edges.old) }
    ensures { Became (taking_link k delta asked) edges.old edges.new }
{
    let held = link_of(read_word(edges, EDGE_WORDS * k + LINK_PLACE));
    let chosen = chosen_in(edges, k, delta, asked, held);
    put_link(edges, k, Some(chosen));
}

// Ends the visit of edge k: flags anew, and no serif beside a link.
pub fn end_in(edges: &mut [i32], k: usize, roundness: usize, straightness: usize)
    requires { Joined edges.old k }
    ensures { Became (ending k roundness straightness) edges.old edges.new }
{
    let link = link_of(read_word(edges, EDGE_WORDS * k + LINK_PLACE));
    let serif = link_of(read_word(edges, EDGE_WORDS * k + SERIF_PLACE));
    let edge = Edge {
        link,
        serif,
        ..EMPTY_EDGE
    };
    let ended = with_properties(edge, roundness, straightness);
    let flags = ended.flags;
    let left = ended.serif;
    put_flags(edges, k, flags);
    put_serif(edges, k, left);
}
