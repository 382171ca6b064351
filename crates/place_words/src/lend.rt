// The calls that place one edge, over lent edges: the edges are tested and placed where their words stand.
ghost use Rattle.std.specs.Prelude.{◌≡◌};
ghost use Rattle.refusals.specs.Outcome.{answer_of};
ghost use Rattle.place_words.specs.Lent.{link_dir_of, LinkedLent, SerifLent, AdjustLent, BoundsLent};

use super::adjust::adjust_in;
use super::align::{linked_in, serif_in};
use super::bounds::upper_in;
use fixed::width::rule_holds;
use place::adjust::LinkDir;
use place::bounds::lower_bound;
use place::named::both_below;
use refusals::order::{Refusal, require};
use words::edge::EDGE_WORDS;
use words::field::{choice_of, link_word, rule_of};
use words_call::shown::both_in;
use words_call::word::named_edge;
use words_edge_test::test::edges_test;
use words_shape::field::{CHOICE, is_in};

// Places a stem edge by its base edge.
pub fn lend_linked_edge(
    edges: &mut [i32],
    rule: i32,
    standards: &[i32],
    base: i32,
    stem: i32,
) -> Result<(), Refusal>
    ensures { LinkedLent edges.old rule standards.now base stem (answer_of result) edges.new }
{
    let width = rule_of(rule);
    let from = named_edge(base);
    let to = named_edge(stem);
    let named = both_below(from, to, edges.len() / EDGE_WORDS);
    let own = require(rule_holds(width, standards), Refusal::BadParameter);
    edges_test(edges, is_in(rule, CHOICE), own, named, true)?;
    linked_in(edges, width, standards, from, to);
    Ok(())
}

// Places a serif edge by its base edge.
pub fn lend_serif_edge(edges: &mut [i32], base: i32, serif: i32) -> Result<(), Refusal>
    ensures { SerifLent edges.old base serif (answer_of result) edges.new }
{
    let from = named_edge(base);
    let to = named_edge(serif);
    let named = both_below(from, to, edges.len() / EDGE_WORDS);
    edges_test(edges, true, Ok(()), named, true)?;
    serif_in(edges, from, to);
    Ok(())
}

// The neighbour that a choice names.
pub fn link_dir_of(word: i32) -> LinkDir
    ensures { result ≡ link_dir_of word }
{
    if choice_of(word) {
        return LinkDir::Next;
    }
    LinkDir::Prev
}

// Holds an edge to its neighbour where it has passed it.
pub fn lend_adjust(
    edges: &mut [i32],
    edge: i32,
    dir: i32,
    top_to_bottom: i32,
) -> Result<(), Refusal>
    ensures { AdjustLent edges.old edge dir top_to_bottom (answer_of result) edges.new }
{
    let at = named_edge(edge);
    let others = both_in(dir, top_to_bottom, CHOICE);
    let own = require(!choice_of(top_to_bottom), Refusal::Retired);
    edges_test(edges, others, own, at < edges.len() / EDGE_WORDS, true)?;
    adjust_in(edges, at, link_dir_of(dir));
    Ok(())
}

// Finds the two edges that a remaining edge stands between.
pub fn lend_bounds(
    edges: &[i32],
    edge: i32,
    lower: &mut i32,
    upper: &mut i32,
) -> Result<(), Refusal>
    ensures { BoundsLent edges.now edge (lower.old, upper.old) (answer_of result) (lower.new, upper.new) }
{
    let at = named_edge(edge);
    edges_test(edges, true, Ok(()), at < edges.len() / EDGE_WORDS, true)?;
    let above = upper_in(edges, at);
    let below = lower_bound(at);
    *upper = link_word(above);
    *lower = link_word(below);
    Ok(())
}
