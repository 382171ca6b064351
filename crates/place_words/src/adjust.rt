// An edge that passed its neighbour, put back to it.
ghost use Rattle.std.specs.Prelude.{◌<◌};
ghost use Rattle.axis.specs.Limits.{most_pos};
ghost use Rattle.axis.specs.Accepted.{AxisWithin};
ghost use Rattle.words.specs.Edge.{edges_in};
ghost use Rattle.words_call.specs.Lent.{edges_of};
ghost use Rattle.words_edge.specs.Whole.{Whole, Became};
ghost use Rattle.place_words.specs.Placing.{adjusting, BoundBy};

use super::bounds::neighbour_in;
use axis::kinds::Mark;
use place::adjust::{LinkDir, has_passed, is_far};
use words_edge::edge::{put_pos, read_edge};

// The neighbour whose position the edge takes: where it has passed it and its link is far from the previous edge.
fn bound_of(words: &[i32], edge: usize, dir: LinkDir) -> Option<u16>
    requires { Whole words.now × AxisWithin most_pos (edges_of words.now) × (edge < edges_in words.now) }
    ensures { BoundBy words.now edge dir result }
{
    if edge == 0 {
        return None;
    }
    let neighbour = neighbour_in(words, edge, dir);
    let Some(k) = neighbour else {
        return None;
    };
    let edge1 = read_edge(words, edge);
    let edge2 = read_edge(words, k as usize);
    if !has_passed(dir, edge1.pos, edge2.pos) {
        return None;
    }
    let link = edge1.link;
    let Some(l) = link else {
        return None;
    };
    let linked = read_edge(words, l as usize);
    let prev_edge = read_edge(words, edge - 1);
    if is_far(linked.pos, prev_edge.pos) {
        return Some(k);
    }
    None
}

// Puts the edge to its neighbour's position, where it takes it.
pub fn adjust_in(words: &mut [i32], edge: usize, dir: LinkDir)
    requires { Whole words.old × AxisWithin most_pos (edges_of words.old) × (edge < edges_in words.old) }
    ensures { Became (adjusting edge dir) words.old words.new }
{
    let bound = bound_of(words, edge, dir);
    let Some(k) = bound else {
        return;
    };
    let to = read_edge(words, k as usize);
    put_pos(words, edge, to.pos, Mark::Bound);
}
