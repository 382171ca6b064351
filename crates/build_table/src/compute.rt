// The public call (the Rust's `compute_edges`).
ghost use Rattle.std.specs.Prelude.{◌≡◌};
ghost use Rattle.refusals.specs.Outcome.{answer_of};
ghost use Rattle.refusals.specs.Refusal.{refusal};
ghost use Rattle.axis.specs.Accepted.{SegmentsWithin};
ghost use Rattle.build_join.specs.Joining.{shown};
ghost use Rattle.build_join.specs.Walks.{Joinable};
ghost use Rattle.build.specs.Building.{building_tests, last_state, ComputesEdges};
ghost use Rattle.build.specs.Answer.{built_of};

use super::products::products_hold;
use axis::accept::{few_edges, few_segments, segments_indices, segments_numbers};
use axis::edge::Axis;
use axis::kinds::Group;
use axis::segment::Segments;
use build::built::Built;
use build::numbers::{Thresholds, numbers_hold};
use build::told::{is_cjk, rules_of};
use build_join::join::{Joined, join_segments, none_joined};
use build_join::ring::stems_of;
use build_join::rules::Rules;
use build_mark::mark::link_segments_to_edges;
use build_properties::properties::compute_edge_properties;
use refusals::order::{Refusal, require};

// Both loops, or CJK's one.
fn join_all(segments: Segments, rules: Rules) -> Joined
    requires { SegmentsWithin segments × Joinable segments rules }
    ensures { result ≡ shown segments rules (last_state segments rules) }
{
    let stems = stems_of(segments, rules.cjk);
    let dim = rules.dim;
    let major_dir = rules.major_dir;
    let none = none_joined(dim, major_dir);
    let joined = join_segments(segments, &stems, rules, false, none);
    if rules.cjk {
        return joined;
    }
    if joined.full {
        return joined;
    }
    join_segments(segments, &stems, rules, true, joined)
}

// The refusal of the call, 1, 10 or 2 to 4, if there is one.
fn building_refusal(
    segments: Segments,
    edges: usize,
    top_to_bottom: bool,
    scale: i32,
    thresholds: Thresholds,
) -> Result<(), Refusal>
    ensures { answer_of result ≡ refusal (building_tests segments edges top_to_bottom scale thresholds) }
{
    require(few_segments(segments.len), Refusal::TooLong)?;
    require(few_edges(edges), Refusal::TooLong)?;
    require(!top_to_bottom, Refusal::Retired)?;
    require(numbers_hold(scale, thresholds), Refusal::BadParameter)?;
    require(segments_indices(segments), Refusal::BadIndex)?;
    require(segments_numbers(segments), Refusal::OutOfRange)?;
    require(products_hold(segments, scale), Refusal::OutOfRange)
}

// Builds the edges of an axis from its segments, from bottom to top. The refusals are 1 to 5, and 10 where top to bottom is asked for, which is retired.
pub fn compute_edges(
    segments: Segments,
    old: Axis,
    group: Group,
    top_to_bottom: bool,
    scale: i32,
    thresholds: Thresholds,
) -> Result<Built, Refusal>
    ensures { ComputesEdges segments old group top_to_bottom scale thresholds (built_of segments old result) }
{
    building_refusal(segments, old.len, top_to_bottom, scale, thresholds)?;
    let dim = old.dim;
    let major_dir = old.major_dir;
    let cjk = is_cjk(group);
    let rules = rules_of(dim, major_dir, cjk, scale, thresholds);
    let joined = join_all(segments, rules);
    if joined.full {
        return Err(Refusal::NoRoom);
    }
    let edges = joined.axis;
    let next = joined.next;
    let linked = link_segments_to_edges(segments, edges, next);
    let axis = compute_edge_properties(edges, linked);
    Ok(Built {
        segments: linked,
        axis,
    })
}
