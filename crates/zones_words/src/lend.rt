// Blue zones over lent edges: the edges are tested and placed where their words stand.
ghost use Rattle.refusals.specs.Outcome.{answer_of};
ghost use Rattle.zones_words.specs.Lent.{ZonesLent};

use super::pass::where_zoned_in;
use fixed::width::rule_holds;
use refusals::order::{Refusal, require};
use words::field::{dimension_of, group_of, link_word, rule_of};
use words_call::shown::are_choices;
use words_edge_test::test::edges_test;

// Puts edges on their blue zones, and tells the anchor.
pub fn lend_zones(
    edges: &mut [i32],
    dim: i32,
    group: i32,
    rule: i32,
    standards: &[i32],
    anchor: &mut i32,
) -> Result<(), Refusal>
    ensures { ZonesLent edges.old dim group rule standards.now anchor.old (answer_of result) (edges.new, anchor.new) }
{
    let width = rule_of(rule);
    let own = require(rule_holds(width, standards), Refusal::BadParameter);
    let others = are_choices(dim, group, rule);
    edges_test(edges, others, own, true, true)?;
    let axis = dimension_of(dim);
    let found = where_zoned_in(edges, axis, group_of(group), width, standards);
    *anchor = link_word(found);
    Ok(())
}
