// Where a CJK stem comes to lie.
ghost use Rattle.std.specs.Prelude.{◌≡◌, true};
ghost use Rattle.signed.specs.Range.{Between};
ghost use Rattle.axis.specs.Limits.{most_units, most_passed};
ghost use Rattle.fixed.specs.Width.{rule_holds};
ghost use Rattle.place.specs.Steps.{InReach};
ghost use Rattle.stems_cjk.specs.Cjk.{both_round, start_of, clamped, delta_of, stem_at, stem_of, most_width, most_cjk_start};

use super::gap::gap_of;
use super::offsets::{offsets_delta, pixel_offset};
use axis::edge::Edge;
use axis::kinds::Dimension;
use fixed::width::{WidthRule, stem_width};

// The largest move without STEM_ADJUST.
const MAX_DELTA_ABS: i32 = 14;

// The place of a stem's lower edge, its fitted width, and what it was moved by.
#[derive(Clone, Copy)]
pub struct Stem {
    pub pos: i32,
    pub width: i32,
    pub delta: i32,
}

// Whether both edges of a stem are round.
fn both_round(edge: Edge, edge2: Edge) -> bool
    ensures { result ≡ both_round edge edge2 }
{
    if edge.flags.round {
        return edge2.flags.round;
    }
    false
}

// The start of a stem before it is moved: half its width before the centre, which the passed delta has shifted. Both halves drop their fraction.
fn start_of(opos1: i32, opos2: i32, width: i32, delta: i32) -> i32
    requires { Between most_units most_units opos1 × Between most_units most_units opos2 × Between most_width most_width width × Between most_passed most_passed delta }
    ensures { result ≡ start_of opos1 opos2 width delta }
{
    let centre = (opos1 + opos2) / 2 + delta;
    centre - width / 2
}

// The move, at most 14 either way without STEM_ADJUST.
fn clamp(stem_adjust: bool, delta: i32) -> i32
    ensures { result ≡ clamped stem_adjust delta }
{
    if stem_adjust {
        return delta;
    }
    if delta < -MAX_DELTA_ABS {
        return -MAX_DELTA_ABS;
    }
    if MAX_DELTA_ABS < delta {
        return MAX_DELTA_ABS;
    }
    delta
}

// What a stem from a start, of a width, is moved by.
fn delta_of(stem_adjust: bool, start: i32, width: i32, threshold: i32) -> i32
    requires { Between most_cjk_start most_cjk_start start × Between most_width most_width width × Between 0 64 threshold }
    ensures { result ≡ delta_of stem_adjust start width threshold }
{
    let d_off1 = pixel_offset(start);
    let d_off2 = pixel_offset(start + width);
    clamp(stem_adjust, offsets_delta(d_off1, d_off2, width, threshold))
}

// The stem of a width between two original positions.
fn stem_at(
    stem_adjust: bool,
    threshold: i32,
    opos1: i32,
    opos2: i32,
    width: i32,
    delta: i32,
) -> Stem
    requires { Between most_units most_units opos1 × Between most_units most_units opos2 × Between most_width most_width width × Between most_passed most_passed delta × Between 0 64 threshold }
    ensures { result ≡ stem_at stem_adjust threshold opos1 opos2 width delta }
{
    let start = start_of(opos1, opos2, width, delta);
    let moved = delta_of(stem_adjust, start, width, threshold);
    Stem {
        pos: start + moved,
        width,
        delta: moved,
    }
}

// The stem of two edges, its centre shifted by a passed delta.
pub fn stem_of(
    dim: Dimension,
    stem_adjust: bool,
    rule: WidthRule,
    standards: &[i32],
    edge: Edge,
    edge2: Edge,
    delta: i32,
) -> Stem
    requires standards_value { rule_holds rule standards.now ≡ true }
    requires in_reach { InReach edge × InReach edge2 × Between most_passed most_passed delta }
    ensures { result ≡ stem_of dim stem_adjust rule standards.now edge edge2 delta }
{
    let round = both_round(edge, edge2);
    let threshold = 64 - gap_of(stem_adjust, dim, round);
    let width = stem_width(rule, standards, edge2.opos - edge.opos);
    stem_at(stem_adjust, threshold, edge.opos, edge2.opos, width, delta)
}
