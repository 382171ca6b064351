// What becomes of an edge.
ghost use Rattle.std.specs.Prelude.{◌≡◌};
ghost use Rattle.axis.specs.Link.{index_or};
ghost use Rattle.build_properties.specs.Outcomes.{held_by, nearer as nearer_of, joined_by, flagged_by};
ghost use Rattle.build_properties.specs.Properties.{is_round, serif_beside, with_properties};

use super::join::{Join, distance};
use axis::edge::Edge;
use axis::flags::{Flags, NORMAL};

// The place of the edge that this one is joined to in the way of a join, or its own where there is none.
pub fn edge2_at(edge: Edge, join: Join, own: usize) -> usize
    ensures { result ≡ index_or own (held_by join.is_serif edge) }
{
    if join.is_serif {
        let serif = edge.serif;
        return serif.map_or(own, usize::from);
    }
    let link = edge.link;
    link.map_or(own, usize::from)
}

// The edge asked for, where the segment there is nearer than edge2, the one joined before; else that one.
fn nearer(edge: Edge, edge2: Edge, edge2_ix: Option<u16>, join: Join) -> Option<u16>
    ensures { result ≡ nearer_of edge edge2 join.delta join.edge edge2_ix }
{
    let asked = join.edge;
    let Some(_) = asked else {
        return edge2_ix;
    };
    let Some(_) = edge2_ix else {
        return asked;
    };
    if join.delta < distance(edge.fpos, edge2.fpos) {
        return asked;
    }
    edge2_ix
}

// The edge joined to the nearer of the edge asked for and edge2, its serif's or its link's.
pub fn joined_to(edge: Edge, edge2: Edge, join: Join) -> Edge
    ensures { result ≡ joined_by edge edge2 join }
{
    if join.is_serif {
        let held = edge.serif;
        let serif = nearer(edge, edge2, held, join);
        return Edge { serif, ..edge };
    }
    let held = edge.link;
    let link = nearer(edge, edge2, held, join);
    Edge { link, ..edge }
}

// The edge, marked as one that has a serif where it was joined as such.
pub fn flagged(edge: Edge, join: Join) -> Edge
    ensures { result ≡ flagged_by join.is_serif edge }
{
    let mut marked = edge;
    if join.is_serif {
        marked.flags.serif = true;
        return marked;
    }
    marked
}

// Whether an edge of so many round and straight segments is round.
fn is_round(roundness: usize, straightness: usize) -> bool
    ensures { result ≡ is_round roundness straightness }
{
    if roundness == 0 {
        return false;
    }
    straightness <= roundness
}

// The serif of an edge with this link: none beside a link.
fn serif_beside(link: Option<u16>, serif: Option<u16>) -> Option<u16>
    ensures { result ≡ serif_beside link serif }
{
    match link {
        None => serif,
        Some(_) => None,
    }
}

// The edge at the end of its visit: flags anew, and no serif beside a link.
pub fn with_properties(edge: Edge, roundness: usize, straightness: usize) -> Edge
    ensures { result ≡ with_properties roundness straightness edge }
{
    let round = is_round(roundness, straightness);
    let flags = Flags { round, ..NORMAL };
    let link = edge.link;
    let held = edge.serif;
    let serif = serif_beside(link, held);
    Edge {
        flags,
        serif,
        ..edge
    }
}
