// The lowercase m rule over lent edges: the edges are tested and moved where their words stand.
ghost use Rattle.refusals.specs.Outcome.{answer_of};
ghost use Rattle.lowercase_m_words.specs.Lent.{MLent};

use super::hint::m_in;
use lowercase_m::hint::count_holds;
use refusals::order::{Refusal, require};
use words::edge::EDGE_WORDS;
use words::field::group_of;
use words_edge_test::test::edges_test;
use words_shape::field::{CHOICE, is_in};

// Moves the third stem of an m, for edges and a group.
pub fn lend_m(edges: &mut [i32], group: i32) -> Result<(), Refusal>
    ensures { MLent edges.old group (answer_of result) edges.new }
{
    let own = require(count_holds(edges.len() / EDGE_WORDS), Refusal::BadParameter);
    edges_test(edges, is_in(group, CHOICE), own, true, true)?;
    m_in(edges, group_of(group));
    Ok(())
}
