// The call over lent segments and lent edges.
ghost use Rattle.std.specs.Prelude.{◌≡◌, ◌≤◌};
ghost use Rattle.refusals.specs.Outcome.{answer_of};
ghost use Rattle.refusals.specs.Refusal.{refusal};
ghost use Rattle.axis.specs.Limits.{most_edges, most_segments};
ghost use Rattle.pack.specs.Call.{packing_tests, Holding};
ghost use Rattle.words.specs.Edge.{edges_in};
ghost use Rattle.words.specs.Segment.{segments_in, flat_segments};
ghost use Rattle.words_call.specs.Lent.{edges_of};
ghost use Rattle.words_edge.specs.Whole as Edges;
ghost use Rattle.words_segment.specs.Whole as Segments;
ghost use Rattle.pack_words.specs.Pack.{PackedBoth, PackedLent};

use super::ring::rings_sound_in;
use pack::number::number;
use pack_steps_words::down::{clear_in, move_in};
use pack_steps_words::ends::ends_in;
use pack_steps_words::keep::kept_in;
use refusals::order::{Refusal, require};
use turn_words::lend::turning_front;
use turn_words::test::index_refusal;
use words::word::count_word;

// The refusal of the call, if there is one: rings are followed where every index is tested.
fn packing_refusal(segments: &[i32], edges: &[i32]) -> Result<(), Refusal>
    requires { (segments_in segments.now ≤ most_segments) × (edges_in edges.now ≤ most_edges) }
    ensures { answer_of result ≡ refusal (packing_tests (edges_of edges.now) (flat_segments segments.now)) }
{
    index_refusal(segments, edges)?;
    require(rings_sound_in(segments, edges), Refusal::BrokenRing)
}

// Packs both lists, and tells how many segments are kept.
fn pack_in(segments: &mut [i32], edges: &mut [i32]) -> usize
    requires { Segments.Whole segments.old × Edges.Whole edges.old × Holding (edges_of edges.old) (flat_segments segments.old) }
    ensures { PackedBoth segments.old edges.old result segments.new edges.new }
{
    let kept = kept_in(segments);
    let numbers = number(&kept);
    let new = numbers.new;
    let count = numbers.count;
    move_in(segments, &kept, &new);
    clear_in(segments, count);
    ends_in(edges, &new);
    count
}

// Keeps the segments that belong to an edge and those reached from kept ones by links or serifs, and tells how many they are.
pub fn lend_packing(segments: &mut [i32], edges: &mut [i32], count: &mut i32) -> Result<(), Refusal>
    ensures { PackedLent segments.old edges.old count.old (answer_of result) (segments.new, (edges.new, count.new)) }
{
    turning_front(segments, edges)?;
    packing_refusal(segments, edges)?;
    let kept = pack_in(segments, edges);
    *count = count_word(kept);
    Ok(())
}
