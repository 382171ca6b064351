// The points from the first of a segment to its last, moved by its edge.
ghost use Rattle.std.specs.Prelude.{◌≡◌, ◌-◌, ◌≤◌, length};
ghost use Rattle.signed.specs.Range.{Between};
ghost use Rattle.weak.specs.Weak.{contour_of};
ghost use Rattle.edge_points.specs.EdgePoints.{moved_by, move_points, walked};
ghost use Rattle.edge_points.specs.Steps.{most_reach, Reach, Room, Mover, points, run, stretch_of, contour_in, Around};

use super::contour::contour_of;
use axis::edge::Edge;

// Where a current comes to by an edge: with snap to the edge's position, without by as much as the edge was moved.
fn moved_by(current: i32, snap: bool, edge: Edge) -> i32
    requires { Mover edge × Between most_reach most_reach current }
    ensures { result ≡ moved_by snap edge current }
{
    if snap {
        return edge.pos;
    }
    current + (edge.pos - edge.opos)
}

// Moves the points from `from` up to `to`, and touches them.
fn move_run(
    currents: &mut [i32],
    touched: &mut [u8],
    from: usize,
    to: usize,
    snap: bool,
    edge: Edge,
)
    requires from_le_to { (from ≤ to) × (to ≤ length currents.old) × (length touched.old ≡ length currents.old) }
    requires mover { Mover edge × Room currents.old from to }
    ensures { points currents.new touched.new ≡ move_points snap edge (run from (to - from)) (points currents.old touched.old) }
{
    for p in from..to {
        let u = moved_by(currents[p], snap, edge);
        currents[p] = u;
        touched[p] = 1;
    }
}

// Moves the points from `first` to `last`, each next one around their contour: behind its last comes its first. The contour is looked for only where that is met.
pub fn move_walk(
    currents: &mut [i32],
    touched: &mut [u8],
    ends: &[u16],
    first: usize,
    last: usize,
    snap: bool,
    edge: Edge,
)
    requires around { Around (stretch_of (contour_of 0 ends.now first)) first last (length currents.old) × (length touched.old ≡ length currents.old) }
    requires mover { Mover edge × Reach most_reach currents.old }
    ensures { points currents.new touched.new ≡ move_points snap edge (walked (contour_in (stretch_of (contour_of 0 ends.now first))) first last) (points currents.old touched.old) }
{
    let behind = last + 1;
    if first <= last {
        move_run(currents, touched, first, behind, snap, edge);
        return;
    }
    let contour = contour_of(ends, first);
    move_run(currents, touched, first, contour.end, snap, edge);
    move_run(currents, touched, contour.start, behind, snap, edge);
}
