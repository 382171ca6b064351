// What a segment asks of its edge.
ghost use Rattle.std.specs.Prelude.{◌≡◌, pos};
ghost use Rattle.signed.specs.Distance.{distance as distance_of};
ghost use Rattle.axis.specs.Link.{index_or};
ghost use Rattle.build_properties.specs.Properties.{named_edge, is_other, join_of};

use axis::segment::Segment;

// The edge that a segment asks its own to join, if any: as a serif of it or as its link, and how far the segment there is.
#[derive(Clone, Copy)]
pub struct Join {
    pub is_serif: bool,
    pub edge: Option<u16>,
    pub delta: i32,
}

// How far two font positions are apart.
pub fn distance(a: i16, b: i16) -> i32
    ensures { result ≡ pos (distance_of a b) }
{
    let x = a as i32;
    let y = b as i32;
    if x < y {
        return y - x;
    }
    x - y
}

// The place of the segment's serif, or its own where it has none.
pub fn serif_at(segment: Segment, own: usize) -> usize
    ensures { result ≡ index_or own segment.serif }
{
    let serif = segment.serif;
    serif.map_or(own, usize::from)
}

// The place of the segment's link, or its own where it has none.
pub fn link_at(segment: Segment, own: usize) -> usize
    ensures { result ≡ index_or own segment.link }
{
    let link = segment.link;
    link.map_or(own, usize::from)
}

// The place of the segment behind, or the last one's where there is none.
pub fn next_at(segment: Segment, last: usize) -> usize
    ensures { result ≡ index_or last segment.next }
{
    let next = segment.next;
    next.map_or(last, usize::from)
}

// The edge of the segment that an index names, and none without an index.
fn named_edge(ix: Option<u16>, named: Segment) -> Option<u16>
    ensures { result ≡ named_edge ix named }
{
    let edge = named.edge;
    match ix {
        None => None,
        Some(_) => edge,
    }
}

// Whether this is an edge, and another one than edge_ix.
fn is_other(edge: Option<u16>, edge_ix: usize) -> bool
    ensures { result ≡ is_other edge_ix edge }
{
    match edge {
        None => false,
        Some(k) => k as usize != edge_ix,
    }
}

// What a segment of edge edge_ix asks for; `serif` and `link` are the segments that it names as such.
pub fn join_of(segment: Segment, serif: Segment, link: Segment, edge_ix: usize) -> Join
    ensures { result ≡ join_of edge_ix segment serif link }
{
    let serif_ix = segment.serif;
    let edge = named_edge(serif_ix, serif);
    if is_other(edge, edge_ix) {
        let delta = distance(segment.pos, serif.pos);
        return Join {
            is_serif: true,
            edge,
            delta,
        };
    }
    let link_ix = segment.link;
    let linked = named_edge(link_ix, link);
    let delta = distance(segment.pos, link.pos);
    Join {
        is_serif: false,
        edge: linked,
        delta,
    }
}
