// The step of building (the Rust's `compute_edge_properties`).
ghost use Rattle.std.specs.Prelude.{◌≡◌};
ghost use Rattle.build_properties.specs.Properties.{edge_properties};
ghost use Rattle.build_properties.specs.Steps.{Ready};

use super::join::{join_of, link_at, next_at, serif_at};
use super::outcome::{edge2_at, flagged, joined_to, with_properties};
use axis::edge::Axis;
use axis::segment::Segments;

// Gives each edge its flags, its link and its serif, by the segments of its ring. A visit can change its own edge, so that is read anew at each segment.
pub fn compute_edge_properties(axis: Axis, segments: Segments) -> Axis
    requires { Ready axis segments }
    ensures { result ≡ edge_properties axis segments }
{
    let count = axis.len;
    let mut table = axis;
    for edge_ix in 0..count {
        let visited = table.edges[edge_ix];
        let last_segment_ix = visited.last as usize;
        let mut segment_ix = visited.first as usize;
        let mut roundness: usize = 0;
        let mut straightness: usize = 0;
        // a loop: the next segment is read from the ring
        loop {
            let edge = table.edges[edge_ix];
            let segment = segments.segments[segment_ix];
            if segment.flags.round {
                roundness += 1;
            } else {
                straightness += 1;
            }
            let serif_ix = serif_at(segment, segment_ix);
            let link_ix = link_at(segment, segment_ix);
            let serif = segments.segments[serif_ix];
            let link = segments.segments[link_ix];
            let join = join_of(segment, serif, link, edge_ix);
            let held_ix = edge2_at(edge, join, edge_ix);
            let joined = joined_to(edge, table.edges[held_ix], join);
            table.edges[edge_ix] = joined;
            let edge2_ix = edge2_at(joined, join, edge_ix);
            table.edges[edge2_ix] = flagged(table.edges[edge2_ix], join);
            if segment_ix == last_segment_ix {
                break;
            }
            segment_ix = next_at(segment, last_segment_ix);
        }
        table.edges[edge_ix] = with_properties(table.edges[edge_ix], roundness, straightness);
    }
    table
}
