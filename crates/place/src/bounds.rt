// The edges that bound an edge.
ghost use Rattle.std.specs.Prelude.{◌≡◌, ◌<◌, ◌≤◌};
ghost use Rattle.axis.specs.Limits.{most_edges};
ghost use Rattle.place.specs.Placing.{lower_bound, upper_bound};

use axis::edge::Axis;

// The edge before, where there is one.
pub fn lower_bound(edge: usize) -> Option<u16>
    requires { edge < most_edges }
    ensures { result ≡ lower_bound edge }
{
    if edge == 0 {
        return None;
    }
    Some((edge - 1) as u16)
}

// The edge behind, where there is one and it is done.
pub fn upper_bound(axis: Axis, edge: usize) -> Option<u16>
    requires { (edge < axis.len) × (axis.len ≤ most_edges) }
    ensures { result ≡ upper_bound axis edge }
{
    let next = edge + 1;
    if axis.len <= next {
        return None;
    }
    let behind = axis.edges[next];
    if behind.flags.done {
        return Some(next as u16);
    }
    None
}

// The edges that an edge stands between.
#[derive(Clone, Copy)]
pub struct Bounds {
    pub lower: Option<u16>,
    pub upper: Option<u16>,
}
