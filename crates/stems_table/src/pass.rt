// The pass over the edges.
ghost use Rattle.std.specs.Prelude.{◌≡◌, true};
ghost use Rattle.axis.specs.Limits.{most_pos};
ghost use Rattle.axis.specs.Accepted.{Below, AxisWithin};
ghost use Rattle.fixed.specs.Width.{rule_holds};
ghost use Rattle.stems.specs.Stems.{stems_of};
ghost use Rattle.stems.specs.StepsPass.{SettledWithout};
ghost use Rattle.stems.specs.Answer.{passed_of};

use axis::edge::Axis;
use stems::close::too_close;
use stems::kinds::{Mode, Trail};
use stems::outcome::Stems;
use stems::plan::plan_for;
use stems::store::{anchor_after, before, first_edge, hold, second_edge};

// Aligns all stems that are not done. An edge with no link, and a CJK stem too close to the last one, is counted and passed over. The fallback, for an edge whose link has a
// zone, can be left out where there is no such edge.
pub fn align_stems(
    axis: Axis,
    mode: Mode,
    standards: &[i32],
    start: Option<u16>,
    fallback: bool,
) -> Stems
    requires standards_value { rule_holds mode.rule standards.now ≡ true }
    requires axis_within { AxisWithin most_pos axis × Below axis.len start × SettledWithout fallback axis.len axis }
    ensures { passed_of result ≡ stems_of mode standards.now start axis }
{
    let n = axis.len;
    let mut aligned = axis;
    let mut serif_count: usize = 0;
    let mut anchor = start;
    let mut trail = Trail {
        last: None,
        delta: 0,
    };
    for i in 0..n {
        let edge = aligned.edges[i];
        if edge.flags.done {
            continue;
        }
        let link = edge.link;
        let Some(k) = link else {
            serif_count += 1; // no stem
            continue;
        };
        let edge2_ix = k as usize;
        let edge2 = aligned.edges[edge2_ix];
        if too_close(mode, trail, edge, edge2) {
            serif_count += 1; // dealt with behind the pass, with the serifs
            continue;
        }
        let base_ix = anchor.map_or(i, usize::from);
        let base = aligned.edges[base_ix];
        let is_before = edge2_ix < i;
        let plan = plan_for(
            mode, standards, edge, edge2, base, anchor, is_before, trail, fallback,
        );
        aligned.edges[i] = first_edge(edge, plan);
        aligned.edges[edge2_ix] = second_edge(aligned.edges[edge2_ix], plan);
        let prev = aligned.edges[before(i)];
        aligned.edges[i] = hold(plan, i, aligned.edges[i], prev, aligned.edges[edge2_ix]);
        anchor = anchor_after(plan, anchor, i);
        trail = plan.trail;
    }
    Stems {
        count: serif_count,
        anchor,
        axis: aligned,
    }
}
