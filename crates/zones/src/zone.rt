// What the pass asks of two edges and does to one.
ghost use Rattle.std.specs.Prelude.{◌≡◌, true, cond, ◌<◌};
ghost use Rattle.axis.specs.Limits.{most_edges};
ghost use Rattle.fixed.specs.Width.{rule_holds};
ghost use Rattle.place.specs.Steps.{InReach};
ghost use Rattle.zones.specs.Zones.{unzoned, zone_mark, zoned_edge, anchor_first};
ghost use Rattle.zones.specs.Steps.{both_zoned, loses_own, loses_link, thinned, zone_of, linked_or_zoned};

use axis::edge::{Edge, fix_at, has_blue, with_done_flag};
use axis::kinds::Mark;
use fixed::width::WidthRule;
use place::place::linked_edge;

// The edge without its zone, and no longer neutral.
fn unzone(edge: Edge) -> Edge
    ensures { result ≡ unzoned edge }
{
    let mut flags = edge.flags;
    flags.neutral = false;
    Edge {
        flags,
        blue: None,
        ..edge
    }
}

// The edge, without its zone where that is skipped.
pub fn thin(skipped: bool, edge: Edge) -> Edge
    ensures { result ≡ thinned skipped edge }
{
    if skipped {
        return unzone(edge);
    }
    edge
}

// Whether an edge and its link both have a zone.
fn both_zoned(edge: Edge, edge2: Edge) -> bool
    ensures { result ≡ both_zoned edge edge2 }
{
    let link = edge.link;
    if link.is_some() {
        if has_blue(edge) {
            return has_blue(edge2);
        }
    }
    false
}

// Whether the link's zone is skipped: of two zones, where it is neutral.
pub fn loses_link(edge: Edge, edge2: Edge) -> bool
    ensures { result ≡ loses_link edge edge2 }
{
    if both_zoned(edge, edge2) {
        return edge2.flags.neutral;
    }
    false
}

// Whether the edge's own zone is skipped: of two zones, where it is neutral and the link's is not.
pub fn loses_own(edge: Edge, edge2: Edge) -> bool
    ensures { result ≡ loses_own edge edge2 }
{
    if both_zoned(edge, edge2) {
        if edge2.flags.neutral {
            return false;
        }
        return edge.flags.neutral;
    }
    false
}

// The edge's own zone, or else its link's.
pub fn zone_of(edge: Edge, edge2: Edge) -> Option<i32>
    ensures { result ≡ zone_of edge.blue edge2.blue }
{
    let blue = edge.blue;
    match blue {
        None => edge2.blue,
        Some(z) => Some(z),
    }
}

// One of two places.
pub fn choose(first: bool, a: usize, b: usize) -> usize
    ensures { result ≡ cond first a b }
{
    if first {
        return a;
    }
    b
}

// What a zone gives an edge its position as: the first one that the pass finds is the blue anchor.
fn zone_mark(anchor: Option<u16>) -> Mark
    ensures { result ≡ zone_mark anchor }
{
    match anchor {
        None => Mark::BlueAnchor,
        Some(k) => Mark::Blue,
    }
}

// The edge on its zone, done; one that was done already keeps its mark.
pub fn put_on_zone(anchor: Option<u16>, edge: Edge, fitted: i32) -> Edge
    ensures { result ≡ zoned_edge anchor edge fitted }
{
    if edge.flags.done {
        let mark = edge.mark;
        return fix_at(edge, fitted, mark);
    }
    fix_at(edge, fitted, zone_mark(anchor))
}

// The stem edge aligned to the base edge and done, where it has no zone of its own.
pub fn align_stem(rule: WidthRule, standards: &[i32], base: Edge, stem: Edge) -> Edge
    requires standards_value { rule_holds rule standards.now ≡ true }
    requires in_reach { InReach base × InReach stem }
    ensures { result ≡ linked_or_zoned rule standards.now base stem }
{
    if has_blue(stem) {
        return stem;
    }
    with_done_flag(linked_edge(rule, standards, base, stem))
}

// The anchor, which the first edge whose visit found a zone becomes.
pub fn anchor_first(anchor: Option<u16>, edge: usize) -> Option<u16>
    requires { edge < most_edges }
    ensures { result ≡ anchor_first anchor edge }
{
    match anchor {
        None => Some(edge as u16),
        Some(k) => Some(k),
    }
}
