// The public call (the Rust's `link_segments_cjk`).
ghost use Rattle.std.specs.Prelude.{◌≡◌};
ghost use Rattle.refusals.specs.Outcome.{answer_of};
ghost use Rattle.refusals.specs.Refusal.{refusal};
ghost use Rattle.link.specs.Linking.{linking_tests, LinksSegmentsCjk};
ghost use Rattle.link.specs.Answer.{linked_of};

use axis::accept::{few_segments, segments_indices, segments_nexts, segments_numbers};
use axis::kinds::Direction;
use axis::segment::Segments;
use link::rounds::{last_round, pair_round, serif_round};
use link::thresholds::{numbers_hold, thresholds_of};
use refusals::order::{Refusal, require};

// The refusal of the call, if there is one.
fn linking_refusal(segments: Segments, units_per_em: i32, scale: i32) -> Result<(), Refusal>
    ensures { answer_of result ≡ refusal (linking_tests segments units_per_em scale) }
{
    require(few_segments(segments.len), Refusal::TooLong)?;
    require(numbers_hold(units_per_em, scale), Refusal::BadParameter)?;
    require(segments_indices(segments), Refusal::BadIndex)?;
    require(segments_nexts(segments), Refusal::BadIndex)?;
    require(segments_numbers(segments), Refusal::OutOfRange)
}

// Links the segments of an axis into stems and serifs. The refusals are 1 to 4.
pub fn link_segments_cjk(
    segments: Segments,
    major_dir: Direction,
    units_per_em: i32,
    scale: i32,
) -> Result<Segments, Refusal>
    ensures { LinksSegmentsCjk segments major_dir units_per_em scale (linked_of segments result) }
{
    linking_refusal(segments, units_per_em, scale)?;
    let thresholds = thresholds_of(units_per_em, scale);
    let paired = pair_round(segments, major_dir, thresholds);
    let held = serif_round(paired, thresholds);
    Ok(last_round(held, thresholds))
}
