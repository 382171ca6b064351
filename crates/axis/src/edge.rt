// Edges, and the axis record by value with its working table of 128 edges.
ghost use Rattle.std.specs.Prelude.{◌≡◌};
ghost use Rattle.axis.specs.Edge.{empty_axis, has_blue, placed, finished, fixed_at};

use super::flags::{Flags, NORMAL};
use super::kinds::{Dimension, Direction, Mark};
use super::limits::MOST_EDGES;

// Segments that share a position: the font position, the original and the fitted position in units, the edges that it is linked to, and what last gave it its position.
#[derive(Clone, Copy)]
pub struct Edge {
    pub fpos: i16,
    pub opos: i32,
    pub pos: i32,
    pub flags: Flags,
    pub dir: Direction,
    pub blue: Option<i32>,
    pub link: Option<u16>,
    pub serif: Option<u16>,
    pub first: u16,
    pub last: u16,
    pub mark: Mark,
}

// One dimension of an outline: its edges are the first `len` of the working table.
#[derive(Clone, Copy)]
pub struct Axis {
    pub dim: Dimension,
    pub major_dir: Direction,
    pub edges: [Edge; MOST_EDGES],
    pub len: usize,
}

// The edge of an unused place.
pub const EMPTY_EDGE: Edge = Edge {
    fpos: 0,
    opos: 0,
    pos: 0,
    flags: NORMAL,
    dir: Direction::None,
    blue: None,
    link: None,
    serif: None,
    first: 0,
    last: 0,
    mark: Mark::Nothing,
};

// An axis without edges.
pub fn empty_axis(dim: Dimension, major_dir: Direction) -> Axis
    ensures { result ≡ empty_axis dim major_dir }
{
    Axis {
        dim,
        major_dir,
        edges: [EMPTY_EDGE; MOST_EDGES],
        len: 0,
    }
}

// Whether an edge has a blue zone.
#[tactic(auto, unfolding(crate::specs::Edge::has_blue))]
pub fn has_blue(edge: Edge) -> bool
    ensures { result ≡ has_blue edge.blue }
{
    edge.blue.is_some()
}

// The edge at a position, and what gave it.
pub fn with_pos(edge: Edge, pos: i32, mark: Mark) -> Edge
    ensures { result ≡ placed edge pos mark }
{
    Edge { pos, mark, ..edge }
}

// The edge, placed for good.
pub fn with_done_flag(edge: Edge) -> Edge
    ensures { result ≡ finished edge }
{
    let mut fixed = edge;
    fixed.flags.done = true;
    fixed
}

// The edge at a position, for good, and what gave it.
pub fn fix_at(edge: Edge, pos: i32, mark: Mark) -> Edge
    ensures { result ≡ fixed_at edge pos mark }
{
    let mut flags = edge.flags;
    flags.done = true;
    Edge {
        pos,
        mark,
        flags,
        ..edge
    }
}
