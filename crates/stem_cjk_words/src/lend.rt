// The CJK stem over lent edges: the edges are tested and placed where their words stand.
ghost use Rattle.refusals.specs.Outcome.{answer_of};
ghost use Rattle.stem_cjk_words.specs.Lent.{StemLent};

use super::stem::stem_in;
use axis::accept::is_inside;
use axis::limits::{LEAST_PASSED, MOST_PASSED};
use fixed::width::rule_holds;
use place::named::both_below;
use refusals::order::{Refusal, require};
use words::edge::EDGE_WORDS;
use words::field::{choice_of, dimension_of, rule_of};
use words_call::shown::are_choices;
use words_call::word::named_edge;
use words_edge_test::test::edges_test;

// Places both edges of a CJK stem, and tells its own delta.
pub fn lend_stem(
    edges: &mut [i32],
    dim: i32,
    stem_adjust: i32,
    rule: i32,
    standards: &[i32],
    edge: i32,
    edge2: i32,
    delta: i32,
    own_delta: &mut i32,
) -> Result<(), Refusal>
    ensures { StemLent edges.old dim stem_adjust rule standards.now edge edge2 delta own_delta.old (answer_of result) (edges.new, own_delta.new) }
{
    let width = rule_of(rule);
    let one = named_edge(edge);
    let two = named_edge(edge2);
    let named = both_below(one, two, edges.len() / EDGE_WORDS);
    let own = require(rule_holds(width, standards), Refusal::BadParameter);
    let others = are_choices(dim, stem_adjust, rule);
    let passed = is_inside(delta, LEAST_PASSED, MOST_PASSED);
    edges_test(edges, others, own, named, passed)?;
    let axis = dimension_of(dim);
    let adjust = choice_of(stem_adjust);
    *own_delta = stem_in(edges, axis, adjust, width, standards, one, two, delta);
    Ok(())
}
