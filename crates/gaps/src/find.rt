// The call: every pair of an axis in the order of the table.
ghost use Rattle.std.specs.Prelude.{◌≡◌};
ghost use Rattle.refusals.specs.Outcome.{answer_of};
ghost use Rattle.refusals.specs.Refusal.{refusal};
ghost use Rattle.axis.specs.Accepted.{AxisWithin};
ghost use Rattle.axis.specs.Limits.{most_pos};
ghost use Rattle.gaps.specs.Gaps.{asked_for, gaps_tests, found_in, FindsLostGaps};
ghost use Rattle.gaps.specs.Steps.{Placed, Few, with_pair};
ghost use Rattle.gaps.specs.Answer.{found_of, gaps_of};

use super::pair::{NO_PAIR, Pair, is_gone, is_stem, named, pair_of};
use axis::accept::{edges_indices, edges_numbers, few_edges, is_inside};
use axis::edge::{Axis, Edge};
use axis::limits::MOST_UNITS;
use refusals::order::{Refusal, require};

// The count of lost gaps, the first lost pair or none, the count of lost stems, and that of edges that are not done.
#[derive(Clone, Copy)]
pub struct Gaps {
    pub count: usize,
    pub pair: Pair,
    pub stems: usize,
    pub not_done: usize,
}

// Nothing found.
pub const NOTHING: Gaps = Gaps {
    count: 0,
    pair: NO_PAIR,
    stems: 0,
    not_done: 0,
};

// Whether a link is asked for: with `linked` there must be one.
pub fn asked_for(link: Option<u16>, linked: bool) -> bool
    ensures { result ≡ asked_for linked link }
{
    if linked {
        return link.is_some();
    }
    true
}

// What is found with the pair from edge i to edge j.
pub fn with_pair(found: Gaps, i: usize, first: Edge, j: usize, second: Edge, least: i32) -> Gaps
    requires { Few (found_of found) × Placed i first × Placed j second }
    ensures { found_of result ≡ with_pair least (found_of found) i first j second }
{
    let new = pair_of(i, first, j, second);
    if !is_gone(new.before, first.pos, second.pos) {
        return found;
    }
    let pair = named(found.pair, new);
    let from = first.link;
    let to = second.link;
    if is_stem(i, from, j, to) {
        let stems = found.stems + 1;
        return Gaps {
            pair,
            stems,
            ..found
        };
    }
    if new.before < least {
        return found;
    }
    let count = found.count + 1;
    Gaps {
        count,
        pair,
        ..found
    }
}

// The lost pairs of the axis: each edge that counts ends one that starts at the last edge in front of it that counts.
fn find_lost(axis: Axis, least: i32, linked: bool) -> Gaps
    requires { AxisWithin most_pos axis }
    ensures { found_of result ≡ found_in least linked axis }
{
    let n = axis.len;
    let mut last = None;
    let mut found = NOTHING;
    for i in 0..n {
        let edge = axis.edges[i];
        if !edge.flags.done {
            found.not_done += 1;
            continue;
        }
        let link = edge.link;
        if !asked_for(link, linked) {
            continue;
        }
        let k = last.map_or(i, usize::from); // the first edge that counts is no width behind itself, which loses nothing
        found = with_pair(found, k, axis.edges[k], i, edge, least);
        last = Some(i as u16);
    }
    found
}

// The refusal of the call, if there is one.
fn gaps_refusal(axis: Axis, least: i32) -> Result<(), Refusal>
    ensures { answer_of result ≡ refusal (gaps_tests axis least) }
{
    require(few_edges(axis.len), Refusal::TooLong)?;
    require(is_inside(least, 0, MOST_UNITS), Refusal::BadParameter)?;
    require(edges_indices(axis), Refusal::BadIndex)?;
    require(edges_numbers(axis), Refusal::OutOfRange)
}

// Finds the gaps between placed edges, of those that were at least so wide, and the stems, that fitting has turned or left without a pixel row, and counts the edges that are
// not done, which it does not guard. A refusal, 1 to 4, finds nothing.
pub fn lost_gaps(axis: Axis, least: i32, linked: bool) -> Result<Gaps, Refusal>
    ensures { FindsLostGaps axis least linked (gaps_of result) }
{
    gaps_refusal(axis, least)?;
    Ok(find_lost(axis, least, linked))
}
