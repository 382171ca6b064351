// The tests of lent segments and edges, of which it is known whether they hold: where they do, none is made.
ghost use Rattle.std.specs.Prelude.{◌≡◌, true, ◌&&◌};
ghost use Rattle.refusals.specs.Outcome.{answer_of};
ghost use Rattle.refusals.specs.Refusal.{refusal};
ghost use Rattle.axis.specs.Refusals.{edges_numbers, segments_numbers};
ghost use Rattle.turn.specs.Indices.{index_tests};
ghost use Rattle.words.specs.Segment.{flat_segments};
ghost use Rattle.words_shape.specs.Shape.{edges_shown, segments_shown};
ghost use Rattle.words_call.specs.Lent.{edges_of};
ghost use Rattle.words_tables_test.specs.Held.{Held};

use refusals::order::Refusal;
use turn_words::test::index_refusal;
use words_edge_test::exact as of_edges;
use words_segment_test::exact as of_segments;
use words_shape::element::{is_edges, is_segments};

// Whether every word is one of its field.
pub fn tables_shown(segments: &[i32], edges: &[i32], held: bool) -> bool
    requires { held ≡ true → Held segments.now edges.now }
    ensures { result ≡ (segments_shown segments.now && edges_shown edges.now) }
{
    if held {
        return true;
    }
    is_segments(segments) && is_edges(edges)
}

// The refusal by lengths and indices, if there is one.
pub fn tables_indexed(segments: &[i32], edges: &[i32], held: bool) -> Result<(), Refusal>
    requires { held ≡ true → Held segments.now edges.now }
    ensures { answer_of result ≡ refusal (index_tests (edges_of edges.now) (flat_segments segments.now)) }
{
    if held {
        return Ok(());
    }
    index_refusal(segments, edges)
}

// Whether score and len of every segment are accepted.
pub fn segments_ranged(segments: &[i32], edges: &[i32], held: bool) -> bool
    requires { held ≡ true → Held segments.now edges.now }
    ensures { result ≡ segments_numbers (flat_segments segments.now) }
{
    if held {
        return true;
    }
    of_segments::numbers_hold(segments)
}

// Whether the positions of every edge are accepted.
pub fn edges_ranged(segments: &[i32], edges: &[i32], held: bool) -> bool
    requires { held ≡ true → Held segments.now edges.now }
    ensures { result ≡ edges_numbers (edges_of edges.now) }
{
    if held {
        return true;
    }
    of_edges::numbers_hold(edges)
}
