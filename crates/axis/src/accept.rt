// The tests that calls over edges and segments share.
ghost use Rattle.std.specs.Prelude.{◌≡◌, min, leb};
ghost use Rattle.axis.specs.Limits.{most_edges, most_segments};
ghost use Rattle.axis.specs.Refusals.{
  inside,
  link_holds,
  blue_holds,
  every_edge,
  every_segment,
  edge_indices,
  edge_segments,
  edge_numbers,
  edge_passes,
  edges_indices,
  edges_numbers,
  segment_indices,
  segment_next,
  segment_edge,
  segment_numbers,
  segment_passes,
  segments_indices,
  segments_nexts,
  segments_numbers,
};

use super::edge::{Axis, Edge, has_blue};
use super::limits::{
    LEAST_POS, LEAST_UNITS, MOST_EDGES, MOST_POS, MOST_SCORE, MOST_SEGMENTS, MOST_UNITS,
};
use super::segment::{Segment, Segments};

// Whether a number is from one limit to another.
pub fn is_inside(x: i32, low: i32, high: i32) -> bool
    ensures { result ≡ inside low high x }
{
    low <= x && x <= high
}

// Whether an index, where there is one, is below a count.
#[tactic(auto, unfolding(crate::specs::Refusals::link_holds))]
pub fn link_holds(link: Option<u16>, count: usize) -> bool
    ensures { result ≡ link_holds count link }
{
    match link {
        None => true,
        Some(k) => usize::from(k) < count,
    }
}

// Whether a blue's fitted position, where there is one, is accepted.
fn blue_holds(blue: Option<i32>) -> bool
    ensures { result ≡ blue_holds blue }
{
    match blue {
        None => true,
        Some(z) => is_inside(z, LEAST_UNITS, MOST_UNITS),
    }
}

// Whether an edge's link and serif are edges.
#[tactic(auto, unfolding(crate::specs::Refusals::edge_indices))]
fn edge_indices(edge: Edge, count: usize) -> bool
    ensures { result ≡ edge_indices count edge }
{
    link_holds(edge.link, count) && link_holds(edge.serif, count)
}

// Whether an edge's positions are accepted.
fn edge_numbers(edge: Edge) -> bool
    ensures { result ≡ edge_numbers edge }
{
    is_inside(edge.opos, LEAST_UNITS, MOST_UNITS)
        && is_inside(edge.pos, LEAST_POS, MOST_POS)
        && blue_holds(edge.blue)
}

// Whether an edge's first and last are segments.
#[tactic(auto, unfolding(crate::specs::Refusals::edge_segments))]
fn edge_segments(edge: Edge, count: usize) -> bool
    ensures { result ≡ edge_segments count edge }
{
    usize::from(edge.first) < count && usize::from(edge.last) < count
}

// Whether a segment's link and serif are segments.
#[tactic(auto, unfolding(crate::specs::Refusals::segment_indices))]
fn segment_indices(segment: Segment, count: usize) -> bool
    ensures { result ≡ segment_indices count segment }
{
    link_holds(segment.link, count) && link_holds(segment.serif, count)
}

// Whether a segment's next is a segment.
#[tactic(auto, unfolding(crate::specs::Refusals::segment_next))]
fn segment_next(segment: Segment, count: usize) -> bool
    ensures { result ≡ segment_next count segment }
{
    link_holds(segment.next, count)
}

// Whether a segment's edge is an edge.
#[tactic(auto, unfolding(crate::specs::Refusals::segment_edge))]
fn segment_edge(segment: Segment, count: usize) -> bool
    ensures { result ≡ segment_edge count segment }
{
    link_holds(segment.edge, count)
}

// Whether a segment's score and len are accepted.
fn segment_numbers(segment: Segment) -> bool
    ensures { result ≡ segment_numbers segment }
{
    is_inside(segment.score, 0, MOST_SCORE) && is_inside(segment.len, 0, MOST_SCORE)
}

// Whether there are no more edges than their limit.
pub fn few_edges(count: usize) -> bool
    ensures { result ≡ leb count most_edges }
{
    count <= MOST_EDGES
}

// Whether there are no more segments than their limit.
pub fn few_segments(count: usize) -> bool
    ensures { result ≡ leb count most_segments }
{
    count <= MOST_SEGMENTS
}

// The smaller of two counts.
pub fn least(a: usize, b: usize) -> usize
    ensures { result ≡ min a b }
{
    if a <= b {
        return a;
    }
    b
}

// A test of an edge: link and serif are of so many edges, first and last of so many segments, its positions are accepted, or it has no blue zone.
#[derive(Clone, Copy)]
pub enum EdgeTest {
    Indices(usize),
    Segments(usize),
    Numbers,
    Bare,
}

// A test of a segment: link and serif are of so many segments, so is next, edge is of so many edges, or score and len are accepted.
#[derive(Clone, Copy)]
pub enum SegmentTest {
    Indices(usize),
    Next(usize),
    Edge(usize),
    Numbers,
}

// Whether an edge passes a test.
pub fn edge_passes(edge: Edge, test: EdgeTest) -> bool
    ensures { result ≡ edge_passes test edge }
{
    match test {
        EdgeTest::Indices(count) => edge_indices(edge, count),
        EdgeTest::Segments(count) => edge_segments(edge, count),
        EdgeTest::Numbers => edge_numbers(edge),
        EdgeTest::Bare => !has_blue(edge),
    }
}

// Whether a segment passes a test.
pub fn segment_passes(segment: Segment, test: SegmentTest) -> bool
    ensures { result ≡ segment_passes test segment }
{
    match test {
        SegmentTest::Indices(count) => segment_indices(segment, count),
        SegmentTest::Next(count) => segment_next(segment, count),
        SegmentTest::Edge(count) => segment_edge(segment, count),
        SegmentTest::Numbers => segment_numbers(segment),
    }
}

// Whether every edge passes a test.
pub fn every_edge(axis: Axis, test: EdgeTest) -> bool
    ensures { result ≡ every_edge (edge_passes test) axis }
{
    let n = axis.len.min(MOST_EDGES);
    for i in 0..n {
        let edge = axis.edges[i];
        if !edge_passes(edge, test) {
            return false;
        }
    }
    true
}

// Whether every segment passes a test.
pub fn every_segment(table: Segments, test: SegmentTest) -> bool
    ensures { result ≡ every_segment (segment_passes test) table }
{
    let n = table.len.min(MOST_SEGMENTS);
    for i in 0..n {
        let segment = table.segments[i];
        if !segment_passes(segment, test) {
            return false;
        }
    }
    true
}

// Whether link and serif of every edge are edges.
pub fn edges_indices(axis: Axis) -> bool
    ensures { result ≡ edges_indices axis }
{
    every_edge(axis, EdgeTest::Indices(axis.len))
}

// Whether the positions of every edge are accepted.
pub fn edges_numbers(axis: Axis) -> bool
    ensures { result ≡ edges_numbers axis }
{
    every_edge(axis, EdgeTest::Numbers)
}

// Whether link and serif of every segment are segments.
pub fn segments_indices(table: Segments) -> bool
    ensures { result ≡ segments_indices table }
{
    every_segment(table, SegmentTest::Indices(table.len))
}

// Whether the next of every segment is a segment.
pub fn segments_nexts(table: Segments) -> bool
    ensures { result ≡ segments_nexts table }
{
    every_segment(table, SegmentTest::Next(table.len))
}

// Whether score and len of every segment are accepted.
pub fn segments_numbers(table: Segments) -> bool
    ensures { result ≡ segments_numbers table }
{
    every_segment(table, SegmentTest::Numbers)
}
