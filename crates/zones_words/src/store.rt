// The stores of a visit.
ghost use Rattle.std.specs.Prelude.{◌≡◌, true, ◌<◌};
ghost use Rattle.fixed.specs.Width.{rule_holds};
ghost use Rattle.axis.specs.Accepted.{AxisWithin};
ghost use Rattle.place.specs.Steps.{most_reach};
ghost use Rattle.words.specs.Edge.{edges_in};
ghost use Rattle.words_call.specs.Lent.{edges_of};
ghost use Rattle.words_edge.specs.Whole.{Whole, Became};
ghost use Rattle.zones_words.specs.Blues.{thinning, skipping, zoning, linking};

use axis::edge::{Edge, has_blue};
use axis::kinds::Mark;
use fixed::width::WidthRule;
use place::place::linked_edge;
use words_edge::edge::{put_fixed, put_flags, put_no_zone, read_edge, read_flags, read_mark};
use zones::zone::{loses_link, loses_own, put_on_zone};

// Takes the zone of an edge away where it is skipped, and its neutral flag with it.
fn thin_in(words: &mut [i32], i: usize, skipped: bool)
    requires { Whole words.old × (i < edges_in words.old) }
    ensures { Became (thinning i skipped) words.old words.new }
{
    if skipped {
        let mut flags = read_flags(words, i);
        flags.neutral = false;
        put_flags(words, i, flags);
        put_no_zone(words, i);
    }
}

// Of an edge and its link, one may lose its zone.
pub fn skip_in(words: &mut [i32], i: usize, k: usize)
    requires { Whole words.old × (i < edges_in words.old) × (k < edges_in words.old) }
    ensures { Became (skipping i k) words.old words.new }
{
    let edge = read_edge(words, i);
    let edge2 = read_edge(words, k);
    let own = loses_own(edge, edge2);
    let other = loses_link(edge, edge2);
    thin_in(words, i, own);
    thin_in(words, k, other);
}

// Puts an edge on its zone, done; one that was done already keeps its mark.
pub fn zone_in(words: &mut [i32], anchor: Option<u16>, i: usize, fitted: i32)
    requires { Whole words.old × (i < edges_in words.old) }
    ensures { Became (zoning anchor i fitted) words.old words.new }
{
    let edge = read_edge(words, i);
    let mark = read_mark(words, i);
    let marked = Edge { mark, ..edge };
    let zoned = put_on_zone(anchor, marked, fitted);
    let mark = zoned.mark;
    put_fixed(words, i, fitted, mark);
}

// Aligns an edge to another one and makes it done, where it has no zone of its own.
pub fn stem_in(words: &mut [i32], rule: WidthRule, standards: &[i32], one: usize, two: usize)
    requires standards_value { rule_holds rule standards.now ≡ true }
    requires whole { Whole words.old × (one < edges_in words.old) × (two < edges_in words.old) × AxisWithin most_reach (edges_of words.old) }
    ensures { Became (linking rule standards.now one two) words.old words.new }
{
    let stem = read_edge(words, two);
    if has_blue(stem) {
        return;
    }
    let base = read_edge(words, one);
    let moved = linked_edge(rule, standards, base, stem);
    put_fixed(words, two, moved.pos, Mark::Linked);
}
