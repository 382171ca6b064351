// Blue zones and then stems over lent edges: the edges are tested and aligned where their words stand.
ghost use Rattle.refusals.specs.Outcome.{answer_of};
ghost use Rattle.zones_stems_words.specs.Lent.{JoinedLent};

use super::test::zones_hold;
use fixed::width::rule_holds;
use refusals::order::{Refusal, require};
use stems::kinds::Mode;
use stems_words::pass::stems_in;
use words::field::{choice_of, dimension_of, group_of, link_word, rule_of};
use words::word::count_word;
use words_call::shown::{are_choices, both_in};
use words_edge_test::test::edges_test;
use words_shape::field::CHOICE;
use zones_words::pass::where_zoned_in;

// Puts edges on their blue zones, then aligns all stems beside the anchor that these left, and tells how many edges were passed over and the anchor.
pub fn lend_joined(
    edges: &mut [i32],
    dim: i32,
    group: i32,
    stem_adjust: i32,
    top_to_bottom: i32,
    rule: i32,
    standards: &[i32],
    count: &mut i32,
    found: &mut i32,
) -> Result<(), Refusal>
    ensures { JoinedLent edges.old dim group stem_adjust top_to_bottom rule standards.now count.old found.old
        (answer_of result) (edges.new, (count.new, found.new)) }
{
    let others = are_choices(dim, group, stem_adjust) && both_in(top_to_bottom, rule, CHOICE);
    let axis = dimension_of(dim);
    let script = group_of(group);
    let width = rule_of(rule);
    let order = require(!choice_of(top_to_bottom), Refusal::Retired);
    let right = order.and(require(rule_holds(width, standards), Refusal::BadParameter));
    let own = right.and(require(zones_hold(edges, axis, script), Refusal::BadParameter));
    edges_test(edges, others, own, true, true)?;
    let start = where_zoned_in(edges, axis, script, width, standards);
    let mode = Mode {
        dim: axis,
        group: script,
        stem_adjust: choice_of(stem_adjust),
        rule: width,
    };
    let passed = stems_in(edges, mode, standards, start, false);
    let last = passed.anchor;
    *count = count_word(passed.count);
    *found = link_word(last);
    Ok(())
}
