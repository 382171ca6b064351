// The pass over the edges.
ghost use Rattle.std.specs.Prelude.{◌≡◌, true};
ghost use Rattle.axis.specs.Limits.{most_pos};
ghost use Rattle.axis.specs.Accepted.{AxisWithin};
ghost use Rattle.fixed.specs.Width.{rule_holds};
ghost use Rattle.zones.specs.Pass.{blues_of};
ghost use Rattle.zones.specs.Answer.{passed_of};

use axis::edge::{Axis, has_blue};
use fixed::width::WidthRule;
use zones::anchored::Anchored;
use zones::zone::{
    align_stem, anchor_first, choose, loses_link, loses_own, put_on_zone, thin, zone_of,
};

// Puts edges on their zones and their linked edges behind them; the first edge whose visit found a zone is the anchor.
pub fn align_to_zones(axis: Axis, rule: WidthRule, standards: &[i32]) -> Anchored
    requires standards_value { rule_holds rule standards.now ≡ true }
    requires axis_within { AxisWithin most_pos axis }
    ensures { passed_of result ≡ blues_of rule standards.now axis }
{
    let n = axis.len;
    let mut aligned = axis;
    let mut anchor = None;
    for i in 0..n {
        let edge = aligned.edges[i];
        if edge.flags.done {
            continue;
        }
        let link = edge.link;
        let k = link.map_or(i, usize::from);
        let edge2 = aligned.edges[k];
        let own = loses_own(edge, edge2);
        let other = loses_link(edge, edge2);
        aligned.edges[i] = thin(own, edge);
        aligned.edges[k] = thin(other, aligned.edges[k]);
        let visited = aligned.edges[i];
        let zone = zone_of(visited, aligned.edges[k]);
        let Some(fitted) = zone else {
            continue;
        };
        let on = has_blue(visited);
        let one = choose(on, i, k);
        let two = choose(on, k, i);
        aligned.edges[one] = put_on_zone(anchor, aligned.edges[one], fitted);
        aligned.edges[two] = align_stem(rule, standards, aligned.edges[one], aligned.edges[two]);
        anchor = anchor_first(anchor, i);
    }
    Anchored {
        anchor,
        axis: aligned,
    }
}
