// CJK stems that are passed over.
ghost use Rattle.std.specs.Prelude.{◌≡◌};
ghost use Rattle.place.specs.Steps.{InReach};
ghost use Rattle.stems.specs.Visit.{is_close, too_close};
ghost use Rattle.stems.specs.Steps.{LastWithin};

use super::kinds::{Mode, Trail};
use axis::edge::Edge;
use axis::kinds::Group;

// Whether an edge of a stem is less than 64 behind the last one.
fn is_close(last: Option<i32>, edge: Edge, edge2: Edge) -> bool
    requires { LastWithin last × InReach edge × InReach edge2 }
    ensures { result ≡ is_close last edge edge2 }
{
    let Some(pos) = last else {
        return false;
    };
    let end = pos + 64;
    if edge.pos < end {
        return true;
    }
    edge2.pos < end
}

// Whether a stem is too close to the last one: for CJK alone.
pub fn too_close(mode: Mode, trail: Trail, edge: Edge, edge2: Edge) -> bool
    requires { LastWithin trail.last × InReach edge × InReach edge2 }
    ensures { result ≡ too_close mode.group trail.last edge edge2 }
{
    let group = mode.group;
    let last = trail.last;
    match group {
        Group::Default => false,
        Group::Cjk => is_close(last, edge, edge2),
    }
}
