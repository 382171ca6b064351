// Where an edge goes: the edges that decide it are found and read.
ghost use Rattle.std.specs.Prelude.{◌≡◌, ◌<◌};
ghost use Rattle.axis.specs.Edge.{edge_at};
ghost use Rattle.words.specs.Edge.{edges_in};
ghost use Rattle.words_call.specs.Lent.{edges_of};
ghost use Rattle.remaining.specs.Plan.{serif_plan};
ghost use Rattle.remaining.specs.Remaining.{by_bounds, latin_plan, serifs_plan, others_plan, done_before, done_behind, plan_of};
ghost use Rattle.remaining_pass_words.specs.Words.{Ready};

use super::find::{done_before, done_behind, near_serif};
use super::read::read_edge;
use remaining::kinds::{Plan, Progress, Round, Way};
use remaining::plan::{
    anchor_plan, cjk_between, latin_between, one_less, serif_plan, spaced_plan, stays_plan,
};

// By the edge whose serif it is.
fn by_serif(words: &[i32], past: Progress, i: usize, k: usize, way: Way) -> Plan
    requires { Ready words.now past i × (k < edges_in words.now) }
    ensures { result ≡ serif_plan (edge_at (edges_of words.now) k) (edge_at (edges_of words.now) i) way past }
{
    let base = read_edge(words, k);
    serif_plan(base, read_edge(words, i), way, past)
}

// Between the nearest done edges, where both are there, else by the anchor.
fn by_bounds(words: &[i32], past: Progress, i: usize, a: usize) -> Plan
    requires { Ready words.now past i × (a < edges_in words.now) }
    ensures { result ≡ by_bounds (edges_of words.now) past i a (done_before (edges_of words.now) i) (done_behind (edges_of words.now) i) }
{
    let edge = read_edge(words, i);
    let before = done_before(words, i);
    let behind = done_behind(words, i);
    let Some(b) = before else {
        return spaced_plan(read_edge(words, a), edge, past);
    };
    let Some(f) = behind else {
        return spaced_plan(read_edge(words, a), edge, past);
    };
    let first = read_edge(words, b as usize);
    let last = read_edge(words, f as usize);
    latin_between(first, last, edge, past)
}

// Latin's plan: by a near serif, as the anchor where there is none, between done edges, or by the anchor.
fn latin_plan(words: &[i32], past: Progress, i: usize) -> Plan
    requires { Ready words.now past i }
    ensures { result ≡ latin_plan (edges_of words.now) past i }
{
    let serif = near_serif(words, i);
    if let Some(k) = serif {
        return by_serif(words, past, i, k as usize, Way::Held);
    }
    let anchor = past.anchor;
    let Some(a) = anchor else {
        return anchor_plan(read_edge(words, i), i, past);
    };
    by_bounds(words, past, i, a as usize)
}

// CJK's plan for an edge with a serif.
fn serifs_plan(words: &[i32], past: Progress, i: usize) -> Plan
    requires { Ready words.now past i }
    ensures { result ≡ serifs_plan (edges_of words.now) past i (edge_at (edges_of words.now) i).serif }
{
    let edge = read_edge(words, i);
    let serif = edge.serif;
    let Some(k) = serif else {
        return stays_plan(edge, past);
    };
    by_serif(words, one_less(past), i, k as usize, Way::Fixed)
}

// CJK's plan for another edge: between the nearest done edges, shifted with the only one there is, or left.
fn others_plan(words: &[i32], past: Progress, i: usize) -> Plan
    requires { Ready words.now past i }
    ensures { result ≡ others_plan (edges_of words.now) past i (done_before (edges_of words.now) i) (done_behind (edges_of words.now) i) }
{
    let edge = read_edge(words, i);
    let before = done_before(words, i);
    let behind = done_behind(words, i);
    let Some(b) = before else {
        let Some(f) = behind else {
            return stays_plan(edge, past);
        };
        return by_serif(words, past, i, f as usize, Way::Placed);
    };
    let Some(f) = behind else {
        return by_serif(words, past, i, b as usize, Way::Placed);
    };
    let first = read_edge(words, b as usize);
    let last = read_edge(words, f as usize);
    cjk_between(first, last, edge, past)
}

// The plan for an edge.
pub fn plan_for(words: &[i32], round: Round, past: Progress, i: usize) -> Plan
    requires { Ready words.now past i }
    ensures { result ≡ plan_of round (edges_of words.now) past i }
{
    match round {
        Round::Latin => latin_plan(words, past, i),
        Round::Serifs => serifs_plan(words, past, i),
        Round::Others => others_plan(words, past, i),
    }
}
