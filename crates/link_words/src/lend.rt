// CJK linking over lent segments: the segments are tested and linked where their words stand.
ghost use Rattle.refusals.specs.Outcome.{answer_of};
ghost use Rattle.link_words.specs.Lent.{LinkingLent};

use super::rounds::link_in;
use link::thresholds::{numbers_hold, thresholds_of};
use refusals::order::{Refusal, require};
use words::field::direction_of;
use words_segment_test::test::segments_test;
use words_shape::field::{DIRECTION, is_in};

// Links segments into stems and serifs.
pub fn lend_linking(
    segments: &mut [i32],
    major_dir: i32,
    units_per_em: i32,
    scale: i32,
) -> Result<(), Refusal>
    ensures { LinkingLent segments.old major_dir units_per_em scale (answer_of result) segments.new }
{
    let own = require(numbers_hold(units_per_em, scale), Refusal::BadParameter);
    segments_test(segments, true, is_in(major_dir, DIRECTION), own, true, true)?;
    let thresholds = thresholds_of(units_per_em, scale);
    link_in(segments, direction_of(major_dir), thresholds);
    Ok(())
}
