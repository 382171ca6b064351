// One visit of the pass.
ghost use Rattle.std.specs.Prelude.{◌≡◌, true, ◌<◌};
ghost use Rattle.fixed.specs.Width.{rule_holds};
ghost use Rattle.axis.specs.Accepted.{AxisWithin};
ghost use Rattle.place.specs.Steps.{most_reach};
ghost use Rattle.words.specs.Edge.{edges_in};
ghost use Rattle.zones.specs.Steps.{step};
ghost use Rattle.zones.specs.Pass.{state_of};
ghost use Rattle.words_call.specs.Lent.{edges_of};
ghost use Rattle.words_edge.specs.Whole.{Whole};
ghost use Rattle.words_edge.specs.Pass.{Visited};

use super::store::{skip_in, stem_in, zone_in};
use axis::edge::has_blue;
use fixed::width::WidthRule;
use words_edge::edge::read_edge;
use zones::zone::{anchor_first, choose, zone_of};

// Visits an edge: a zone is skipped, then the zone that is left decides. Tells the anchor.
pub fn visit_in(
    words: &mut [i32],
    rule: WidthRule,
    standards: &[i32],
    anchor: Option<u16>,
    i: usize,
) -> Option<u16>
    requires standards_value { rule_holds rule standards.now ≡ true }
    requires whole { Whole words.old × (i < edges_in words.old) × AxisWithin most_reach (edges_of words.old) }
    ensures { Visited state_of (step rule standards.now) i anchor result words.old words.new }
{
    let edge = read_edge(words, i);
    if edge.flags.done {
        return anchor;
    }
    let link = edge.link;
    let k = link.map_or(i, usize::from);
    skip_in(words, i, k);
    let visited = read_edge(words, i);
    let edge2 = read_edge(words, k);
    let zone = zone_of(visited, edge2);
    let Some(fitted) = zone else {
        return anchor;
    };
    let on = has_blue(visited);
    let one = choose(on, i, k);
    let two = choose(on, k, i);
    zone_in(words, anchor, one, fitted);
    stem_in(words, rule, standards, one, two);
    anchor_first(anchor, i)
}
