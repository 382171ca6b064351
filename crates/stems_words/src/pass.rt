// The pass over the edges.
ghost use Rattle.std.specs.Prelude.{◌≡◌, true};
ghost use Rattle.fixed.specs.Width.{rule_holds};
ghost use Rattle.axis.specs.Limits.{most_pos};
ghost use Rattle.axis.specs.Accepted.{Below, AxisWithin};
ghost use Rattle.words.specs.Edge.{edges_in};
ghost use Rattle.stems.specs.StepsPass.{SettledWithout};
ghost use Rattle.words_call.specs.Lent.{edges_of};
ghost use Rattle.words_edge.specs.Whole.{Whole};
ghost use Rattle.stems_words.specs.Stems.{StemsPassed};

use super::visit::{Progress, visit_in};
use stems::kinds::{Mode, Trail};
use words::edge::EDGE_WORDS;

// The count of edges passed over, and the anchor or its absence.
#[derive(Clone, Copy)]
pub struct Passed {
    pub count: usize,
    pub anchor: Option<u16>,
}

// Aligns all stems that are not done. The fallback, for an edge whose link has a zone, can be left out where there is no such edge.
pub fn stems_in(
    words: &mut [i32],
    mode: Mode,
    standards: &[i32],
    start: Option<u16>,
    fallback: bool,
) -> Passed
    requires standards_value { rule_holds mode.rule standards.now ≡ true }
    requires whole { Whole words.old × AxisWithin most_pos (edges_of words.old) × Below (edges_in words.old) start × SettledWithout fallback (edges_in words.old) (edges_of words.old) }
    ensures { StemsPassed mode standards.now start result words.old words.new }
{
    let n = words.len() / EDGE_WORDS;
    let mut past = Progress {
        count: 0,
        anchor: start,
        trail: Trail {
            last: None,
            delta: 0,
        },
    };
    for i in 0..n {
        past = visit_in(words, mode, standards, past, i, fallback);
    }
    let anchor = past.anchor;
    Passed {
        count: past.count,
        anchor,
    }
}
