// The loops over the edges.
ghost use Rattle.words_edge.specs.Pass.{Visited};
ghost use Rattle.remaining.specs.Remaining.{state, visit};
ghost use Rattle.remaining_pass_words.specs.Words.{Ready, ReadyPass, Passed, visiting, passing};

use super::find::is_done;
use super::plan::plan_for;
use super::store::store_in;
use axis::kinds::Group;
use remaining::kinds::{Progress, Round};
use remaining::plan::{as_beyond, pos_holds};
use words::edge::EDGE_WORDS;

// Visits edge i: one that is done is passed over, and so is every edge behind a position that no edge may have.
fn visit_in(words: &mut [i32], round: Round, past: Progress, i: usize) -> Progress
    requires { Ready words.old past i }
    ensures { Visited state (visit round) i past result words.old words.new }
{
    if past.beyond {
        return past;
    }
    if is_done(words, i) {
        return past;
    }
    let plan = plan_for(words, round, past, i);
    let pos = plan.pos;
    if !pos_holds(pos) {
        return as_beyond(past);
    }
    let mark = plan.mark;
    let way = plan.way;
    store_in(words, i, pos as i32, mark, way);
    plan.next
}

// Visits every edge.
fn visit_all(words: &mut [i32], round: Round, start: Progress) -> Progress
    requires { ReadyPass words.old start }
    ensures { Passed (visiting round) start result words.old words.new }
{
    let n = words.len() / EDGE_WORDS;
    let mut past = start;
    for i in 0..n {
        past = visit_in(words, round, past, i);
    }
    past
}

// Latin's one loop, or CJK's two, of which the second is for edges that are left.
pub fn pass_in(words: &mut [i32], group: Group, start: Progress) -> Progress
    requires { ReadyPass words.old start }
    ensures { Passed (passing group) start result words.old words.new }
{
    if let Group::Default = group {
        return visit_all(words, Round::Latin, start);
    }
    let past = visit_all(words, Round::Serifs, start);
    if past.count == 0 {
        return past;
    }
    visit_all(words, Round::Others, past)
}
