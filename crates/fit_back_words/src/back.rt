// Each row, and what it changed put back where it refuses.
ghost use Rattle.std.specs.Prelude.{◌≡◌, length};
ghost use Rattle.refusals.specs.Outcome.{answer_of};
ghost use Rattle.edge_points.specs.Steps.{points};
ghost use Rattle.fit.specs.Edges.{fit_edges};
ghost use Rattle.fit.specs.Points.{fit_points};
ghost use Rattle.fit_edges_words.specs.Row.{Begun};
ghost use Rattle.fit_points_words.specs.Row.{Ready};
ghost use Rattle.fit_back_words.specs.Back.{EdgesBack, PointsBack};
ghost use Rattle.fit.specs.Answer.{edges_of};

use super::copied::copy_marks;
use fit::numbers::Numbers;
use fit::outcome::FittedEdges;
use fit_edges_words::row::fit_edges;
use fit_points_words::row::fit_points;
use refusals::order::Refusal;
use remaining_words::copied::copy;

// Fits the edges, or leaves them; the room holds them as they came.
pub fn edges_back(
    words: &mut [i32],
    room: &mut [i32],
    by: Numbers,
    standards: &[i32],
) -> Result<FittedEdges, Refusal>
    requires { Begun by standards.now words.old × (length room.old ≡ length words.old) }
    ensures { EdgesBack (fit_edges by standards.now words.old) (edges_of result) words.old words.new room.new }
{
    copy(words, room);
    let fitted = fit_edges(words, by, standards);
    if fitted.is_ok() {
        return fitted;
    }
    copy(room, words);
    fitted
}

// Moves the points, or leaves them.
pub fn points_back(
    segments: &[i32],
    edges: &[i32],
    by: Numbers,
    fonts: &[i16],
    originals: &[i32],
    currents: &mut [i32],
    touched: &mut [u8],
    weak: &[u8],
    ends: &[u16],
    spare: &mut [i32],
    marks: &mut [u8],
) -> Result<(), Refusal>
    requires ready { Ready segments.now edges.now fonts.now originals.now weak.now ends.now (points currents.old touched.old) }
    requires spare_len { (length spare.old ≡ length currents.old) × (length marks.old ≡ length touched.old) }
    ensures { PointsBack (fit_points by segments.now edges.now fonts.now originals.now weak.now ends.now (points currents.old touched.old))
        (answer_of result) (points currents.old touched.old) (points currents.new touched.new) }
{
    copy(currents, spare);
    copy_marks(touched, marks);
    let moved = fit_points(
        segments, edges, by, fonts, originals, currents, touched, weak, ends,
    );
    if moved.is_ok() {
        return moved;
    }
    copy(spare, currents);
    copy_marks(marks, touched);
    moved
}
