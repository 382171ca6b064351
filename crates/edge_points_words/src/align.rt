// The public call (the Rust's `align_edge_points`).
ghost use Rattle.refusals.specs.Outcome.{answer_of};
ghost use Rattle.edge_points.specs.Steps.{points};
ghost use Rattle.edge_points_words.specs.Align.{EdgePointsLent};

use super::front::points_front;
use super::pass::move_all;
use super::test::points_refusal;
use refusals::order::Refusal;
use words::field::choice_of;
use words_tables_test::hold::tables_hold;

// Moves the points of every segment that has an edge to the edge's position, or where they are not snapped by as much as the edge was moved, and touches them; where `alone` says so, only
// those of edges that are done. The refusals are 255, 1, 3 and 4, which write nothing.
pub fn lend_edge_points(
    segments: &[i32],
    edges: &[i32],
    snap: i32,
    alone: i32,
    currents: &mut [i32],
    touched: &mut [u8],
    ends: &[u16],
) -> Result<(), Refusal>
    ensures { EdgePointsLent segments.now edges.now snap alone ends.now (points currents.old touched.old)
        (answer_of result) (points currents.new touched.new) }
{
    let held = tables_hold(segments, edges);
    points_front(segments, edges, held, snap, alone, currents, touched)?;
    let alone = choice_of(alone);
    points_refusal(segments, edges, held, alone, currents, touched, ends)?;
    let snap = choice_of(snap);
    move_all(segments, edges, snap, alone, currents, touched, ends);
    Ok(())
}
