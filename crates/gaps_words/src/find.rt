// The guard over lent edges: the edges are tested and searched where their words stand.
ghost use Rattle.std.specs.Prelude.{◌≡◌};
ghost use Rattle.refusals.specs.Outcome.{answer_of};
ghost use Rattle.signed.specs.Range.{Between};
ghost use Rattle.axis.specs.Accepted.{AxisWithin};
ghost use Rattle.axis.specs.Limits.{most_units, most_pos};
ghost use Rattle.gaps.specs.Gaps.{found_in};
ghost use Rattle.gaps.specs.Steps.{gone_of};
ghost use Rattle.words_call.specs.Lent.{edges_of};
ghost use Rattle.words_edge.specs.Whole.{Whole};
ghost use Rattle.gaps_words.specs.Find.{GapsLent};
ghost use Rattle.gaps.specs.Answer.{found_of};

use axis::accept::is_inside;
use axis::edge::Edge;
use axis::limits::MOST_UNITS;
use gaps::find::{Gaps, NOTHING, asked_for, with_pair};
use gaps::pair::is_gone;
use refusals::order::{Refusal, require};
use words::edge::EDGE_WORDS;
use words::field::{choice_of, link_word};
use words::word::count_word;
use words_edge::edge::read_edge;
use words_edge_test::test::edges_test;
use words_shape::field::{CHOICE, is_in};

// Whether the pair from one edge to another is gone. Few are: only of those a pair is made.
fn is_lost(first: Edge, second: Edge) -> bool
    requires between { Between most_units most_units first.opos × Between most_units most_units second.opos }
    requires between_2 { Between most_pos most_pos first.pos × Between most_pos most_pos second.pos }
    ensures { result ≡ gone_of first second }
{
    is_gone(second.opos - first.opos, first.pos, second.pos)
}

// The lost pairs of lent edges: each edge that counts ends one that starts at the last edge in front of it that counts.
pub fn find_in(words: &[i32], least: i32, linked: bool) -> Gaps
    requires { Whole words.now × AxisWithin most_pos (edges_of words.now) }
    ensures { found_of result ≡ found_in least linked (edges_of words.now) }
{
    let n = words.len() / EDGE_WORDS;
    let mut last = None;
    let mut found = NOTHING;
    for i in 0..n {
        let edge = read_edge(words, i);
        if !edge.flags.done {
            found.not_done += 1;
            continue;
        }
        let link = edge.link;
        if !asked_for(link, linked) {
            continue;
        }
        let k = last.map_or(i, usize::from); // the first edge that counts is no width behind itself, which loses nothing
        last = Some(i as u16);
        let front = read_edge(words, k);
        if !is_lost(front, edge) {
            continue;
        }
        found = with_pair(found, k, front, i, edge, least);
    }
    found
}

// Finds the gaps and the stems that fitting has lost, and tells how many gaps they are, the two edges of the first pair and its widths before and after, how many stems they are, and
// how many edges are not done.
pub fn lend_gaps(
    edges: &[i32],
    least: i32,
    linked: i32,
    count: &mut i32,
    first: &mut i32,
    second: &mut i32,
    before: &mut i32,
    after: &mut i32,
    stems: &mut i32,
    not_done: &mut i32,
) -> Result<(), Refusal>
    ensures { GapsLent edges.now least linked
        (count.old, (first.old, (second.old, (before.old, (after.old, (stems.old, not_done.old))))))
        (answer_of result) (count.new, (first.new, (second.new, (before.new, (after.new, (stems.new, not_done.new)))))) }
{
    let own = require(is_inside(least, 0, MOST_UNITS), Refusal::BadParameter);
    edges_test(edges, is_in(linked, CHOICE), own, true, true)?;
    let found = find_in(edges, least, choice_of(linked));
    let pair = found.pair;
    let from = pair.first;
    let to = pair.second;
    let old = pair.before;
    let new = pair.after;
    *not_done = count_word(found.not_done);
    *stems = count_word(found.stems);
    *after = new;
    *before = old;
    *second = link_word(to);
    *first = link_word(from);
    *count = count_word(found.count);
    Ok(())
}
