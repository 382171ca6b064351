// A stem of width 96 and more, by its edges.
ghost use Rattle.std.specs.Prelude.{◌≡◌};
ghost use Rattle.signed.specs.Range.{Between};
ghost use Rattle.stems_latin.specs.Latin.{most_start, most_length, most_width, wide_first};

use super::centre::centre_of;
use super::floor::half;
use super::nearer::nearer_of;
use fixed::pixel::pix_round;

// The first edge: it or the second edge is put on a pixel edge, whichever moves the centre less.
pub fn wide_first(start: i32, org_len: i32, width: i32) -> i32
    requires { Between most_start most_start start × Between most_length most_length org_len × Between most_width most_width width }
    ensures { result ≡ wide_first start org_len width }
{
    let centre = centre_of(start, org_len);
    let half_width = half(width);
    let cur_pos1 = pix_round(start);
    let cur_pos2 = pix_round(start + org_len) - width;
    nearer_of(
        cur_pos1 + half_width - centre,
        cur_pos2 + half_width - centre,
        cur_pos1,
        cur_pos2,
    )
}
