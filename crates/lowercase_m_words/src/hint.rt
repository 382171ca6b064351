// The rule.
ghost use Rattle.std.specs.Prelude.{◌≡◌, true};
ghost use Rattle.axis.specs.Limits.{most_pos};
ghost use Rattle.axis.specs.Accepted.{AxisWithin};
ghost use Rattle.lowercase_m.specs.M.{count_holds};
ghost use Rattle.words.specs.Edge.{edges_in};
ghost use Rattle.words_call.specs.Lent.{edges_of};
ghost use Rattle.words_edge.specs.Whole.{Whole, Became};
ghost use Rattle.lowercase_m_words.specs.M.{aligning};

use super::moves::stem_in;
use axis::kinds::Group;
use lowercase_m::stems::{applies, delta_of, stems_of};
use words::edge::EDGE_WORDS;
use words_edge::edge::read_edge;

// Moves the third stem of 6 or 12 edges to the same distance as the second, where the rule applies.
pub fn m_in(words: &mut [i32], group: Group)
    requires { Whole words.old × AxisWithin most_pos (edges_of words.old) × (count_holds (edges_in words.old) ≡ true) }
    ensures { Became (aligning group) words.old words.new }
{
    let stems = stems_of(words.len() / EDGE_WORDS);
    let third = stems.third;
    let edge1 = read_edge(words, stems.first);
    let edge2 = read_edge(words, stems.second);
    let edge3 = read_edge(words, third);
    if !applies(group, stems, edge1, edge2, edge3) {
        return;
    }
    let delta = delta_of(edge1.pos, edge2.pos, edge3.pos);
    stem_in(words, third, delta);
}
