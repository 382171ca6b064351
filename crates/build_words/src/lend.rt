// Edge building over lent segments and room for edges: the segments are tested where their words stand, and the edges are built there.
ghost use Rattle.std.specs.Prelude.{◌≡◌, [], ◌∷◌};
ghost use Rattle.refusals.specs.Outcome.{answer_of};
ghost use Rattle.refusals.specs.Refusal.{refusal, bad_parameter, ◌unless◌};
ghost use Rattle.axis.specs.Refusals.{bottom_to_top};
ghost use Rattle.build.specs.Building.{numbers_hold};
ghost use Rattle.build_words.specs.Lent.{BuiltLent};

use super::pass::build_in;
use super::products::products_hold;
use build::numbers::{Thresholds, numbers_hold};
use build::told::{is_cjk, rules_of};
use refusals::order::{Refusal, require};
use words::edge::TABLE_WORDS;
use words::field::{choice_of, dimension_of, direction_of, group_of};
use words::word::count_word;
use words_call::shown::are_choices;
use words_segment_test::test::segments_test;
use words_shape::field::{DIRECTION, is_in};

// The refusal by the call's own tests: the order of edges, and the numbers.
fn own_refusal(top_to_bottom: bool, scale: i32, thresholds: Thresholds) -> Result<(), Refusal>
    ensures { answer_of result ≡ refusal (bottom_to_top top_to_bottom ∷ bad_parameter unless numbers_hold scale thresholds ∷ []) }
{
    require(!top_to_bottom, Refusal::Retired)?;
    require(numbers_hold(scale, thresholds), Refusal::BadParameter)
}

// Builds the edges of segments, and tells how many they are.
pub fn lend_building(
    segments: &mut [i32],
    edges: &mut [i32],
    dim: i32,
    major_dir: i32,
    group: i32,
    top_to_bottom: i32,
    scale: i32,
    thresholds: Thresholds,
    count: &mut i32,
) -> Result<(), Refusal>
    ensures { BuiltLent segments.old edges.old dim major_dir group top_to_bottom scale thresholds count.old
        (answer_of result) (segments.new, (edges.new, count.new)) }
{
    let room = edges.len() == TABLE_WORDS;
    let others = is_in(major_dir, DIRECTION) && are_choices(dim, group, top_to_bottom);
    let own = own_refusal(choice_of(top_to_bottom), scale, thresholds);
    let products = products_hold(segments, scale);
    segments_test(segments, room, others, own, false, products)?;
    let rules = rules_of(
        dimension_of(dim),
        direction_of(major_dir),
        is_cjk(group_of(group)),
        scale,
        thresholds,
    );
    let joined = build_in(segments, edges, rules);
    if joined.full {
        return Err(Refusal::NoRoom);
    }
    *count = count_word(joined.count);
    Ok(())
}
