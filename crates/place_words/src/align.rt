// An edge placed by another one: the linked edge by its width, the serif edge by its distance.
ghost use Rattle.std.specs.Prelude.{◌≡◌, true, ◌<◌};
ghost use Rattle.fixed.specs.Width.{rule_holds};
ghost use Rattle.axis.specs.Edge.{edge_at};
ghost use Rattle.place.specs.Steps.{InReach};
ghost use Rattle.words.specs.Edge.{edges_in};
ghost use Rattle.words_call.specs.Lent.{edges_of};
ghost use Rattle.words_edge.specs.Whole.{Whole, Became};
ghost use Rattle.place_words.specs.Placing.{linked_to, serif_to};

use axis::kinds::Mark;
use fixed::width::WidthRule;
use place::place::{linked_edge, serif_edge};
use words_edge::edge::{put_pos, read_edge};

// Places a stem edge by its base edge.
pub fn linked_in(words: &mut [i32], rule: WidthRule, standards: &[i32], base: usize, stem: usize)
    requires standards_value { rule_holds rule standards.now ≡ true }
    requires whole { Whole words.old × (base < edges_in words.old) × (stem < edges_in words.old) }
    requires in_reach { InReach (edge_at (edges_of words.old) base) × InReach (edge_at (edges_of words.old) stem) }
    ensures { Became (linked_to rule standards.now base stem) words.old words.new }
{
    let from = read_edge(words, base);
    let moved = linked_edge(rule, standards, from, read_edge(words, stem));
    put_pos(words, stem, moved.pos, Mark::Linked);
}

// Places a serif edge by its base edge.
pub fn serif_in(words: &mut [i32], base: usize, serif: usize)
    requires whole { Whole words.old × (base < edges_in words.old) × (serif < edges_in words.old) }
    requires in_reach { InReach (edge_at (edges_of words.old) base) × InReach (edge_at (edges_of words.old) serif) }
    ensures { Became (serif_to base serif) words.old words.new }
{
    let from = read_edge(words, base);
    let moved = serif_edge(from, read_edge(words, serif));
    put_pos(words, serif, moved.pos, Mark::Serif);
}
