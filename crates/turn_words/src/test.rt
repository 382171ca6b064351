// The refusals of the converter and of every call that is given both lists, on words: those of the tables that they are read as.
ghost use Rattle.std.specs.Prelude.{◌≡◌};
ghost use Rattle.refusals.specs.Outcome.{answer_of};
ghost use Rattle.refusals.specs.Refusal.{refusal};
ghost use Rattle.turn.specs.Indices.{index_tests};
ghost use Rattle.turn.specs.Turning.{turning_tests};
ghost use Rattle.words.specs.Segment.{flat_segments};
ghost use Rattle.words_call.specs.Lent.{edges_of};

use axis::accept::{EdgeTest, SegmentTest, few_edges, few_segments};
use refusals::order::{Refusal, require};
use words::edge::EDGE_WORDS;
use words::segment::SEGMENT_WORDS;
use words_edge_test::exact as of_edges;
use words_edge_test::exact::every_edge;
use words_segment_test::exact as of_segments;
use words_segment_test::exact::every_segment;

// The refusal by lengths and indices, if there is one: link, serif, next and edge of segments, link, serif, first and last of edges.
pub fn index_refusal(segments: &[i32], edges: &[i32]) -> Result<(), Refusal>
    ensures { answer_of result ≡ refusal (index_tests (edges_of edges.now) (flat_segments segments.now)) }
{
    let n = segments.len() / SEGMENT_WORDS;
    let m = edges.len() / EDGE_WORDS;
    require(few_segments(n), Refusal::TooLong)?;
    require(few_edges(m), Refusal::TooLong)?;
    require(of_segments::indices_hold(segments), Refusal::BadIndex)?;
    require(of_segments::nexts_hold(segments), Refusal::BadIndex)?;
    require(
        every_segment(segments, SegmentTest::Edge(m)),
        Refusal::BadIndex,
    )?;
    require(of_edges::indices_hold(edges), Refusal::BadIndex)?;
    require(every_edge(edges, EdgeTest::Segments(n)), Refusal::BadIndex)
}

// The refusal of segments and edges, if there is one.
pub fn turn_refusal(segments: &[i32], edges: &[i32]) -> Result<(), Refusal>
    ensures { answer_of result ≡ refusal (turning_tests (edges_of edges.now) (flat_segments segments.now)) }
{
    index_refusal(segments, edges)?;
    require(of_segments::numbers_hold(segments), Refusal::OutOfRange)?;
    require(of_edges::numbers_hold(edges), Refusal::OutOfRange)
}
