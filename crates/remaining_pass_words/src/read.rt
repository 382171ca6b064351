// One edge of a list, as remaining edges read it.
ghost use Rattle.std.specs.Prelude.{◌≡◌, ◌<◌};
ghost use Rattle.axis.specs.Edge.{edge_at};
ghost use Rattle.words.specs.Edge.{edges_in};
ghost use Rattle.words_call.specs.Lent.{edges_of};
ghost use Rattle.words_edge.specs.Whole.{Whole};
ghost use Rattle.remaining_pass_words.specs.Words.{asked};

use axis::edge::Edge;
use axis::kinds::{Direction, Mark};
use words::edge::{EDGE_WORDS, FLAGS_PLACE, OPOS_PLACE, POS_PLACE, SERIF_PLACE};
use words::field::{flags_of, link_of, short_of};
use words::word::read_word;

// What a visit reads of an edge, its other fields empty: its positions, its flags and its serif.
pub fn read_edge(words: &[i32], i: usize) -> Edge
    requires { Whole words.now × (i < edges_in words.now) }
    ensures { result ≡ asked (edge_at (edges_of words.now) i) }
{
    let at = EDGE_WORDS * i;
    Edge {
        fpos: short_of(read_word(words, at)),
        opos: read_word(words, at + OPOS_PLACE),
        pos: read_word(words, at + POS_PLACE),
        flags: flags_of(read_word(words, at + FLAGS_PLACE)),
        dir: Direction::None,
        blue: None,
        link: None,
        serif: link_of(read_word(words, at + SERIF_PLACE)),
        first: 0,
        last: 0,
        mark: Mark::Nothing,
    }
}
