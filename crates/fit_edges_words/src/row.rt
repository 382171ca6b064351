// The steps of the row, each with all that comes behind it.
ghost use Rattle.fit.specs.Edges.{then_guard, then_remaining, then_m, fit_edges};
ghost use Rattle.fit_edges_words.specs.Row.{Begun, Ready, Accepted, Went};
ghost use Rattle.fit.specs.Answer.{told_of, edges_of};

use super::begin::joined_in;
use super::hold::positions_hold;
use fit::numbers::{Numbers, is_asked};
use fit::outcome::{FittedEdges, is_left};
use gaps_words::find::find_in;
use lowercase_m_words::hint::m_in;
use refusals::order::Refusal;
use remaining::kinds::Progress;
use remaining_pass_words::pass::pass_in;
use words::edge::EDGE_WORDS;

// The guard on edges that are accepted.
fn guarded(words: &[i32], by: Numbers, count: usize, anchor: Option<u16>) -> FittedEdges
    requires { Accepted by count words.now }
    ensures { Went (then_guard by count anchor words.now) (told_of result) words.now words.now }
{
    let gaps = find_in(words, by.least, by.linked);
    FittedEdges {
        count,
        anchor,
        gaps,
    }
}

// The guard on edges whose positions are to be tested.
fn then_guard(
    words: &[i32],
    by: Numbers,
    count: usize,
    anchor: Option<u16>,
) -> Result<FittedEdges, Refusal>
    requires { Ready by count anchor words.now }
    ensures { Went (then_guard by count anchor words.now) (edges_of result) words.now words.now }
{
    if !positions_hold(words) {
        return Err(Refusal::OutOfRange);
    }
    Ok(guarded(words, by, count, anchor))
}

// Remaining edges, where some are left, and then the guard.
fn then_remaining(
    words: &mut [i32],
    by: Numbers,
    count: usize,
    anchor: Option<u16>,
) -> Result<FittedEdges, Refusal>
    requires { Ready by count anchor words.old }
    ensures { Went (then_remaining by count anchor words.old) (edges_of result) words.old words.new }
{
    if !is_left(count, anchor) {
        return then_guard(words, by, count, anchor);
    }
    if !positions_hold(words) {
        return Err(Refusal::OutOfRange);
    }
    let start = Progress {
        anchor,
        count,
        beyond: false,
    };
    let group = by.group;
    let past = pass_in(words, group, start);
    if past.beyond {
        return Err(Refusal::TooSteep);
    }
    let last = past.anchor;
    Ok(guarded(words, by, count, last))
}

// The m rule, where it is asked for, and then remaining edges.
fn then_m(
    words: &mut [i32],
    by: Numbers,
    count: usize,
    anchor: Option<u16>,
) -> Result<FittedEdges, Refusal>
    requires { Ready by count anchor words.old }
    ensures { Went (then_m by count anchor words.old) (edges_of result) words.old words.new }
{
    if !is_asked(by, words.len() / EDGE_WORDS) {
        return then_remaining(words, by, count, anchor);
    }
    if !positions_hold(words) {
        return Err(Refusal::OutOfRange);
    }
    let group = by.group;
    m_in(words, group);
    then_remaining(words, by, count, anchor)
}

// Fits edges that are not refused.
pub fn fit_edges(words: &mut [i32], by: Numbers, standards: &[i32]) -> Result<FittedEdges, Refusal>
    requires { Begun by standards.now words.old }
    ensures { Went (fit_edges by standards.now words.old) (edges_of result) words.old words.new }
{
    let passed = joined_in(words, by, standards);
    let anchor = passed.anchor;
    then_m(words, by, passed.count, anchor)
}
