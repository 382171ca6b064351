// The stores of a visit that its plan may leave out.
ghost use Rattle.std.specs.Prelude.{◌<◌};
ghost use Rattle.axis.specs.Accepted.{AxisWithin};
ghost use Rattle.place.specs.Steps.{most_reach};
ghost use Rattle.words.specs.Edge.{edges_in};
ghost use Rattle.words_call.specs.Lent.{edges_of};
ghost use Rattle.words_edge.specs.Whole.{Whole, Became};
ghost use Rattle.stems_words.specs.Stems.{putting_second, holding};

use axis::kinds::Mark;
use stems::kinds::Second;
use stems::store::{before, is_over};
use words_edge::edge::{put_fixed, put_pos, read_edge};

// Places the second edge of a stem.
pub fn second_in(words: &mut [i32], k: usize, second: Second)
    requires { Whole words.old × (k < edges_in words.old) }
    ensures { Became (putting_second k second) words.old words.new }
{
    match second {
        Second::Stays => {}
        Second::Placed(pos) => put_pos(words, k, pos, Mark::Linked),
        Second::Fixed(pos) => put_fixed(words, k, pos, Mark::Stem),
    }
}

// Puts edge i, linked to edge k, back to the previous edge where that bounds it.
pub fn hold_in(words: &mut [i32], bounded: bool, i: usize, k: usize)
    requires { Whole words.old × AxisWithin most_reach (edges_of words.old) × (i < edges_in words.old) × (k < edges_in words.old) }
    ensures { Became (holding bounded i k) words.old words.new }
{
    if !bounded {
        return;
    }
    let edge = read_edge(words, i);
    let prev = read_edge(words, before(i));
    let link = read_edge(words, k);
    if is_over(edge, prev, link) {
        put_pos(words, i, prev.pos, Mark::Bound);
    }
}
