// The tests behind those in front, in document 01's order.
ghost use Rattle.std.specs.Prelude.{◌≡◌, true, ◌≤◌, length};
ghost use Rattle.refusals.specs.Outcome.{answer_of};
ghost use Rattle.refusals.specs.Refusal.{refusal};
ghost use Rattle.axis.specs.Limits.{most_edges};
ghost use Rattle.words.specs.Edge.{edges_in};
ghost use Rattle.words.specs.Segment.{flat_segments};
ghost use Rattle.words_call.specs.Lent.{edges_of};
ghost use Rattle.words_edge.specs.Whole.{axis_in};
ghost use Rattle.words_segment.specs.Whole.{Whole};
ghost use Rattle.words_tables_test.specs.Held.{Held};
ghost use Rattle.fit.specs.Fit.{number_tests, table_tests, axis_tests};

use axis::accept::is_inside;
use axis::limits::MOST_UNITS;
use edge_points_words::test::segments_points;
use fit::numbers::Numbers;
use fixed::width::rule_holds;
use refusals::order::{Refusal, require};
use weak::accept::{ends_hold, range_refusal};
use weak::limits::MOST_COORDINATE;
use words_tables_test::test::{edges_ranged, segments_ranged, tables_indexed};
use zones_stems_words::test::zones_hold;

// The refusal by the numbers, if there is one. Of more edges than the limit none is read.
fn number_refusal(edges: &[i32], by: Numbers, standards: &[i32]) -> Result<(), Refusal>
    requires { edges_in edges.now ≤ most_edges }
    ensures { answer_of result ≡ refusal (number_tests by standards.now (axis_in edges.now by.dim)) }
{
    let rule = by.rule;
    let dim = by.dim;
    let group = by.group;
    require(rule_holds(rule, standards), Refusal::BadParameter)?;
    require(is_inside(by.least, 0, MOST_UNITS), Refusal::BadParameter)?;
    require(zones_hold(edges, dim, group), Refusal::BadParameter)
}

// The refusal by both tables, which need no test where they hold, and by the contours of so many points, if there is one.
fn table_refusal(
    segments: &[i32],
    edges: &[i32],
    held: bool,
    count: usize,
    ends: &[u16],
) -> Result<(), Refusal>
    requires { (held ≡ true → Held segments.now edges.now) × Whole segments.now }
    ensures { answer_of result ≡ refusal (table_tests (edges_of edges.now) (flat_segments segments.now) count ends.now) }
{
    tables_indexed(segments, edges, held)?;
    require(ends_hold(ends, count), Refusal::BadIndex)?;
    require(segments_points(segments, ends), Refusal::BadIndex)?;
    require(segments_ranged(segments, edges, held), Refusal::OutOfRange)?;
    require(edges_ranged(segments, edges, held), Refusal::OutOfRange)
}

// The refusal of all that is given, if there is one.
pub fn axis_refusal(
    segments: &[i32],
    edges: &[i32],
    held: bool,
    by: Numbers,
    standards: &[i32],
    originals: &[i32],
    currents: &[i32],
    ends: &[u16],
) -> Result<(), Refusal>
    requires { (held ≡ true → Held segments.now edges.now) × Whole segments.now × (edges_in edges.now ≤ most_edges) }
    ensures { answer_of result ≡ refusal (axis_tests by standards.now segments.now edges.now originals.now currents.now ends.now) }
{
    number_refusal(edges, by, standards)?;
    table_refusal(segments, edges, held, originals.len(), ends)?;
    range_refusal(originals, currents, MOST_COORDINATE)
}
