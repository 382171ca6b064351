// Both rows over lent rooms for copies.
ghost use Rattle.refusals.specs.Outcome.{answer_of};
ghost use Rattle.edge_points.specs.Steps.{points};
ghost use Rattle.fit.specs.Fit.{given, fitted};
ghost use Rattle.fit_back_words.specs.Back.{Accepted, Rooms, FitsIn};

use super::back::{edges_back, points_back};
use super::tell::tell;
use fit::numbers::Numbers;
use refusals::order::Refusal;
use remaining_words::copied::copy;

// Fits the edges and then the points of an axis that no test refuses, and tells what became of the edges. Beside the refusal of a step everything lent is
// as it came.
pub fn fit_in_rooms(
    segments: &[i32],
    edges: &mut [i32],
    by: Numbers,
    standards: &[i32],
    fonts: &[i16],
    originals: &[i32],
    currents: &mut [i32],
    touched: &mut [u8],
    weak: &[u8],
    ends: &[u16],
    told: &mut [i32],
    room: &mut [i32],
    spare: &mut [i32],
    marks: &mut [u8],
) -> Result<(), Refusal>
    requires accepted { Accepted by (given segments.now standards.now fonts.now originals.now weak.now ends.now) (fitted edges.old (points currents.old touched.old) told.old) }
    requires rooms { Rooms edges.old currents.old touched.old room.old spare.old marks.old }
    ensures { FitsIn by (given segments.now standards.now fonts.now originals.now weak.now ends.now)
        (fitted edges.old (points currents.old touched.old) told.old)
        (answer_of result) (fitted edges.new (points currents.new touched.new) told.new) }
{
    let done = edges_back(edges, room, by, standards)?;
    let moved = points_back(
        segments, edges, by, fonts, originals, currents, touched, weak, ends, spare, marks,
    );
    if moved.is_err() {
        copy(room, edges);
        return moved;
    }
    tell(told, done);
    Ok(())
}
