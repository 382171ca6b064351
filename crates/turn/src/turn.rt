// An axis turned over: its edges in the other order.
ghost use Rattle.std.specs.Prelude.{◌≡◌, true, ◌≤◌};
ghost use Rattle.refusals.specs.Outcome.{answer_of};
ghost use Rattle.refusals.specs.Refusal.{refusal};
ghost use Rattle.axis.specs.Limits.{most_edges, most_segments};
ghost use Rattle.axis.specs.Refusals.{link_holds, edge_indices, edges_indices, segment_edge};
ghost use Rattle.turn.specs.Indices.{segments_edges};
ghost use Rattle.turn.specs.Turning.{turned_link, turned_edge, turned_segment, turned_axis, turned_segments, turning_tests, TurnsOver};
ghost use Rattle.turn.specs.Answer.{turned_of};

use super::accept::{edges_segments, segments_edges};
use axis::accept::{
    edges_indices, edges_numbers, few_edges, few_segments, segments_indices, segments_nexts,
    segments_numbers,
};
use axis::edge::{Axis, Edge};
use axis::segment::{Segment, Segments};
use refusals::order::{Refusal, require};

// An axis that is turned over, and its segments.
#[derive(Clone, Copy)]
pub struct Turned {
    pub axis: Axis,
    pub segments: Segments,
}

// The index of an edge, where there is one, renumbered.
pub fn turned_link(link: Option<u16>, count: usize) -> Option<u16>
    requires { (count ≤ most_edges) × (link_holds count link ≡ true) }
    ensures { result ≡ turned_link count link }
{
    match link {
        None => None,
        Some(k) => Some((count - 1 - k as usize) as u16),
    }
}

// The edge with link and serif renumbered.
pub fn turned_edge(edge: Edge, count: usize) -> Edge
    requires { (count ≤ most_edges) × (edge_indices count edge ≡ true) }
    ensures { result ≡ turned_edge count edge }
{
    let link = edge.link;
    let serif = edge.serif;
    Edge {
        link: turned_link(link, count),
        serif: turned_link(serif, count),
        ..edge
    }
}

// The segment with its edge renumbered.
fn turned_segment(segment: Segment, count: usize) -> Segment
    requires { (count ≤ most_edges) × (segment_edge count segment ≡ true) }
    ensures { result ≡ turned_segment count segment }
{
    let edge = segment.edge;
    Segment {
        edge: turned_link(edge, count),
        ..segment
    }
}

// The edges in the other order, each renumbered.
fn turn_edges(axis: Axis) -> Axis
    requires { (axis.len ≤ most_edges) × (edges_indices axis ≡ true) }
    ensures { result ≡ turned_axis axis }
{
    let count = axis.len;
    let mut turned = axis;
    for i in 0..count {
        let edge = axis.edges[count - 1 - i];
        turned.edges[i] = turned_edge(edge, count);
    }
    turned
}

// The segments, each with its edge renumbered.
fn turn_segments(segments: Segments, count: usize) -> Segments
    requires { (segments.len ≤ most_segments) × (count ≤ most_edges) × (segments_edges count segments ≡ true) }
    ensures { result ≡ turned_segments count segments }
{
    let n = segments.len;
    let mut turned = segments;
    for i in 0..n {
        let segment = segments.segments[i];
        turned.segments[i] = turned_segment(segment, count);
    }
    turned
}

// The refusal of the call, if there is one.
fn turning_refusal(axis: Axis, segments: Segments) -> Result<(), Refusal>
    ensures { answer_of result ≡ refusal (turning_tests axis segments) }
{
    require(few_segments(segments.len), Refusal::TooLong)?;
    require(few_edges(axis.len), Refusal::TooLong)?;
    require(segments_indices(segments), Refusal::BadIndex)?;
    require(segments_nexts(segments), Refusal::BadIndex)?;
    require(segments_edges(segments, axis.len), Refusal::BadIndex)?;
    require(edges_indices(axis), Refusal::BadIndex)?;
    require(edges_segments(axis, segments.len), Refusal::BadIndex)?;
    require(segments_numbers(segments), Refusal::OutOfRange)?;
    require(edges_numbers(axis), Refusal::OutOfRange)
}

// Turns an axis over: its edges in the other order, with the indices that lead to them renumbered. The refusals are 1, 3 and 4.
pub fn turn_over(axis: Axis, segments: Segments) -> Result<Turned, Refusal>
    ensures { TurnsOver axis segments (turned_of axis segments result) }
{
    turning_refusal(axis, segments)?;
    Ok(Turned {
        axis: turn_edges(axis),
        segments: turn_segments(segments, axis.len),
    })
}
