// The moves of the m rule.
ghost use Rattle.std.specs.Prelude.{◌≡◌, ◌<◌, ◌-ℤ◌};
ghost use Rattle.signed.specs.Range.{Between};
ghost use Rattle.axis.specs.Edge.{edge_at, placed};
ghost use Rattle.axis.specs.Accepted.{Below};
ghost use Rattle.lowercase_m.specs.M.{move_serifs, move_stem, most_delta};
ghost use Rattle.lowercase_m.specs.Steps.{Places, unmoved, twice_moved, thrice_moved};

use axis::edge::{Axis, Edge, with_done_flag, with_pos};
use axis::kinds::Mark;

// The edge, moved back by delta, and what moved it.
pub fn moved_back(edge: Edge, delta: i32, mark: Mark) -> Edge
    requires { Between thrice_moved thrice_moved edge.pos × Between most_delta most_delta delta }
    ensures { result ≡ placed edge (edge.pos -ℤ delta) mark }
{
    let pos = edge.pos;
    with_pos(edge, pos - delta, mark)
}

// Moves the serifs of twelve edges along with the stem.
fn move_serifs(axis: Axis, delta: i32) -> Axis
    requires { Places twice_moved axis × Between most_delta most_delta delta }
    ensures { result ≡ move_serifs axis delta }
{
    if axis.len != 12 {
        return axis;
    }
    let mut moved = axis;
    moved.edges[8] = moved_back(moved.edges[8], delta, Mark::LowercaseM);
    moved.edges[11] = moved_back(moved.edges[11], delta, Mark::LowercaseM);
    moved
}

// Moves the third stem, its link as it was before, and the serifs.
pub fn move_stem(axis: Axis, third: usize, delta: i32) -> Axis
    requires third_lt_len { (third < axis.len) × Below axis.len (edge_at axis third).link }
    requires places { Places unmoved axis × Between most_delta most_delta delta }
    ensures { result ≡ move_stem axis third delta }
{
    let stem = axis.edges[third];
    let link = stem.link;
    let mut moved = axis;
    moved.edges[third] = with_done_flag(moved_back(stem, delta, Mark::LowercaseM));
    let Some(k) = link else {
        return move_serifs(moved, delta);
    };
    let at = k as usize;
    let linked = moved.edges[at];
    moved.edges[at] = with_done_flag(moved_back(linked, delta, Mark::LowercaseM));
    move_serifs(moved, delta)
}
