// A position stored.
ghost use Rattle.std.specs.Prelude.{◌<◌};
ghost use Rattle.signed.specs.Range.{Between};
ghost use Rattle.axis.specs.Limits.{most_pos};
ghost use Rattle.axis.specs.Accepted.{AxisWithin};
ghost use Rattle.words.specs.Edge.{edges_in};
ghost use Rattle.words_call.specs.Lent.{edges_of};
ghost use Rattle.words_edge.specs.Whole.{Whole, Became};
ghost use Rattle.remaining_pass_words.specs.Words.{storing, holding};

use axis::kinds::Mark;
use place::adjust::LinkDir;
use place_words::adjust::adjust_in;
use remaining::kinds::Way;
use words_edge::edge::{put_fixed, put_pos};

// Places an edge for good, and holds it to its previous and to its next edge.
fn hold_in(words: &mut [i32], i: usize, pos: i32, mark: Mark)
    requires { Whole words.old × AxisWithin most_pos (edges_of words.old) × (i < edges_in words.old) × Between most_pos most_pos pos }
    ensures { Became (holding i pos mark) words.old words.new }
{
    put_fixed(words, i, pos, mark);
    adjust_in(words, i, LinkDir::Prev);
    adjust_in(words, i, LinkDir::Next);
}

// Gives an edge its position, as its plan says.
pub fn store_in(words: &mut [i32], i: usize, pos: i32, mark: Mark, way: Way)
    requires { Whole words.old × AxisWithin most_pos (edges_of words.old) × (i < edges_in words.old) × Between most_pos most_pos pos }
    ensures { Became (storing way i pos mark) words.old words.new }
{
    match way {
        Way::Stays => {}
        Way::Placed => put_pos(words, i, pos, mark),
        Way::Fixed => put_fixed(words, i, pos, mark),
        Way::Held => hold_in(words, i, pos, mark),
    }
}
