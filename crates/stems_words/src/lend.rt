// The stem pass over lent edges: the edges are tested and aligned where their words stand.
ghost use Rattle.refusals.specs.Outcome.{answer_of};
ghost use Rattle.stems_words.specs.Lent.{StemsLent};

use super::pass::stems_in;
use axis::accept::link_holds;
use fixed::width::rule_holds;
use refusals::order::{Refusal, require};
use stems::kinds::Mode;
use words::edge::EDGE_WORDS;
use words::field::{choice_of, dimension_of, group_of, link_word, rule_of};
use words::word::count_word;
use words_call::shown::{are_choices, both_in};
use words_call::word::named_anchor;
use words_edge_test::test::edges_test;
use words_shape::field::CHOICE;

// Aligns all stems, and tells how many edges were passed over and the anchor.
pub fn lend_stems(
    edges: &mut [i32],
    dim: i32,
    group: i32,
    stem_adjust: i32,
    top_to_bottom: i32,
    anchor: i32,
    rule: i32,
    standards: &[i32],
    count: &mut i32,
    found: &mut i32,
) -> Result<(), Refusal>
    ensures { StemsLent edges.old dim group stem_adjust top_to_bottom anchor rule standards.now count.old found.old
        (answer_of result) (edges.new, (count.new, found.new)) }
{
    let others = are_choices(dim, group, stem_adjust) && both_in(top_to_bottom, rule, CHOICE);
    let width = rule_of(rule);
    let start = named_anchor(anchor);
    let named = link_holds(start, edges.len() / EDGE_WORDS);
    let order = require(!choice_of(top_to_bottom), Refusal::Retired);
    let own = order.and(require(rule_holds(width, standards), Refusal::BadParameter));
    edges_test(edges, others, own, named, true)?;
    let mode = Mode {
        dim: dimension_of(dim),
        group: group_of(group),
        stem_adjust: choice_of(stem_adjust),
        rule: width,
    };
    let passed = stems_in(edges, mode, standards, start, true);
    let last = passed.anchor;
    *count = count_word(passed.count);
    *found = link_word(last);
    Ok(())
}
