// The pass over the edges.
ghost use Rattle.std.specs.Prelude.{◌≡◌, true};
ghost use Rattle.fixed.specs.Width.{rule_holds};
ghost use Rattle.axis.specs.Limits.{most_pos};
ghost use Rattle.axis.specs.Accepted.{AxisWithin};
ghost use Rattle.words_call.specs.Lent.{edges_of};
ghost use Rattle.words_edge.specs.Whole.{Whole};
ghost use Rattle.zones_words.specs.Blues.{Zoned, ZonedWhere};

use super::visit::visit_in;
use axis::kinds::{Dimension, Group};
use fixed::width::WidthRule;
use words::edge::EDGE_WORDS;
use zones::group::has_blues;

// Puts edges on their zones and their linked edges behind them; the first edge whose visit found a zone is the anchor.
pub fn zones_in(words: &mut [i32], rule: WidthRule, standards: &[i32]) -> Option<u16>
    requires standards_value { rule_holds rule standards.now ≡ true }
    requires whole { Whole words.old × AxisWithin most_pos (edges_of words.old) }
    ensures { Zoned rule standards.now result words.old words.new }
{
    let n = words.len() / EDGE_WORDS;
    let mut anchor = None;
    for i in 0..n {
        anchor = visit_in(words, rule, standards, anchor, i);
    }
    anchor
}

// The same where the group has blue zones on the dimension; where it has none, nothing is done, and there is no anchor.
pub fn where_zoned_in(
    words: &mut [i32],
    dim: Dimension,
    group: Group,
    rule: WidthRule,
    standards: &[i32],
) -> Option<u16>
    requires standards_value { rule_holds rule standards.now ≡ true }
    requires whole { Whole words.old × AxisWithin most_pos (edges_of words.old) }
    ensures { ZonedWhere dim group rule standards.now result words.old words.new }
{
    if has_blues(group, dim) {
        return zones_in(words, rule, standards);
    }
    None
}
