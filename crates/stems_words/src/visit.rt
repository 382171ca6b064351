// One visit of the pass.
ghost use Rattle.std.specs.Prelude.{◌≡◌, true, ◌<◌};
ghost use Rattle.fixed.specs.Width.{rule_holds};
ghost use Rattle.axis.specs.Limits.{most_edges};
ghost use Rattle.stems.specs.StepsPass.{step};
ghost use Rattle.words_edge.specs.Pass.{Visited};
ghost use Rattle.stems_words.specs.Stems.{one_more, state_of, ReadyVisit};

use super::store::{hold_in, second_in};
use stems::close::too_close;
use stems::kinds::{Mode, Trail};
use stems::plan::plan_for;
use stems::store::{anchor_after, is_bounded};
use words_edge::edge::{put_fixed, read_edge};

// What the visits have come to beside the words: the count of edges passed over, the anchor or its absence, and what CJK stems leave to the next one.
#[derive(Clone, Copy)]
pub struct Progress {
    pub count: usize,
    pub anchor: Option<u16>,
    pub trail: Trail,
}

// One more edge is passed over.
fn one_more(past: Progress) -> Progress
    requires { past.count < most_edges }
    ensures { result ≡ one_more past }
{
    let anchor = past.anchor;
    let trail = past.trail;
    Progress {
        count: past.count + 1,
        anchor,
        trail,
    }
}

// Visits edge i. An edge with no link, and a CJK stem too close to the last one, is counted and passed over. The fallback, for an edge whose link has a zone, can be left out where
// there is no such edge.
pub fn visit_in(
    words: &mut [i32],
    mode: Mode,
    standards: &[i32],
    past: Progress,
    i: usize,
    fallback: bool,
) -> Progress
    requires standards_value { rule_holds mode.rule standards.now ≡ true }
    requires ready_visit { ReadyVisit fallback words.old past i }
    ensures { Visited state_of (step mode standards.now) i past result words.old words.new }
{
    let edge = read_edge(words, i);
    if edge.flags.done {
        return past;
    }
    let link = edge.link;
    let Some(k) = link else {
        return one_more(past); // no stem
    };
    let edge2_ix = k as usize;
    let edge2 = read_edge(words, edge2_ix);
    let trail = past.trail;
    if too_close(mode, trail, edge, edge2) {
        return one_more(past); // dealt with behind the pass, with the serifs
    }
    let anchor = past.anchor;
    let base = read_edge(words, anchor.map_or(i, usize::from));
    let is_before = edge2_ix < i;
    let plan = plan_for(
        mode, standards, edge, edge2, base, anchor, is_before, trail, fallback,
    );
    let mark = plan.mark;
    let second = plan.second;
    put_fixed(words, i, plan.first, mark);
    second_in(words, edge2_ix, second);
    hold_in(words, is_bounded(plan, i), i, edge2_ix);
    let anchor = anchor_after(plan, anchor, i);
    let trail = plan.trail;
    Progress {
        count: past.count,
        anchor,
        trail,
    }
}
