// How near to a pixel edge a stem's edge may stay.
ghost use Rattle.std.specs.Prelude.{◌≡◌};
ghost use Rattle.signed.specs.Range.{I32};
ghost use Rattle.stems_cjk.specs.Cjk.{max_gap, gap_of};

use axis::kinds::Dimension;

// In a vertical axis, whose stems are horizontal.
const MAX_HORIZONTAL_GAP: i32 = 9;

// In a horizontal axis, whose stems are vertical.
const MAX_VERTICAL_GAP: i32 = 15;

// The largest gap of an axis.
fn max_gap(dim: Dimension) -> i32
    ensures { (result ≡ max_gap dim) × I32 0 15 result }
{
    match dim {
        Dimension::Horizontal => MAX_VERTICAL_GAP,
        Dimension::Vertical => MAX_HORIZONTAL_GAP,
    }
}

// The gap of a stem: none with STEM_ADJUST, a third of the largest, fraction dropped, where not both edges are round.
pub fn gap_of(stem_adjust: bool, dim: Dimension, round: bool) -> i32
    ensures { (result ≡ gap_of stem_adjust dim round) × I32 0 15 result }
{
    if stem_adjust {
        return 0;
    }
    let gap = max_gap(dim);
    if round {
        return gap;
    }
    gap / 3
}
