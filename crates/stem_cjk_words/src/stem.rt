// Both edges of a CJK stem, in place.
ghost use Rattle.std.specs.Prelude.{◌≡◌, true, ◌<◌};
ghost use Rattle.signed.specs.Range.{Between};
ghost use Rattle.fixed.specs.Width.{rule_holds};
ghost use Rattle.axis.specs.Edge.{edge_at};
ghost use Rattle.axis.specs.Limits.{most_passed};
ghost use Rattle.place.specs.Steps.{InReach};
ghost use Rattle.stems_cjk.specs.Cjk.{most_width, most_cjk_start};
ghost use Rattle.words.specs.Edge.{edges_in};
ghost use Rattle.words_call.specs.Lent.{edges_of};
ghost use Rattle.words_edge.specs.Whole.{Whole, Became};
ghost use Rattle.stem_cjk_words.specs.Stem.{placing_stem, StemPlaced};

use axis::kinds::{Dimension, Mark};
use fixed::width::WidthRule;
use stems_cjk::stem::stem_of;
use words_edge::edge::{put_pos, read_edge};

// Places the lower edge of a stem, then the upper one.
fn place_stem_in(words: &mut [i32], lower: usize, upper: usize, pos: i32, width: i32)
    requires whole { Whole words.old × (lower < edges_in words.old) × (upper < edges_in words.old) }
    requires between { Between most_cjk_start most_cjk_start pos × Between most_width most_width width }
    ensures { Became (placing_stem lower upper pos width) words.old words.new }
{
    put_pos(words, lower, pos, Mark::Stem);
    put_pos(words, upper, pos + width, Mark::Stem);
}

// Places both edges of a stem, its edge of the smaller original position below, and tells what it was moved by.
pub fn stem_in(
    words: &mut [i32],
    dim: Dimension,
    stem_adjust: bool,
    rule: WidthRule,
    standards: &[i32],
    edge: usize,
    edge2: usize,
    delta: i32,
) -> i32
    requires standards_value { rule_holds rule standards.now ≡ true }
    requires whole { Whole words.old × (edge < edges_in words.old) × (edge2 < edges_in words.old) }
    requires in_reach { InReach (edge_at (edges_of words.old) edge) × InReach (edge_at (edges_of words.old) edge2) × Between most_passed most_passed delta }
    ensures { StemPlaced dim stem_adjust rule standards.now edge edge2 delta result words.old words.new }
{
    let edge1 = read_edge(words, edge);
    let other = read_edge(words, edge2);
    let stem = stem_of(dim, stem_adjust, rule, standards, edge1, other, delta);
    if edge1.opos < other.opos {
        place_stem_in(words, edge, edge2, stem.pos, stem.width);
        return stem.delta;
    }
    place_stem_in(words, edge2, edge, stem.pos, stem.width);
    stem.delta
}
