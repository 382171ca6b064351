// A stem of width below 96, by its centre.
ghost use Rattle.std.specs.Prelude.{◌≡◌};
ghost use Rattle.signed.specs.Range.{Between};
ghost use Rattle.stems_latin.specs.Latin.{most_start, most_length, most_width, most_centre, nearer_centre, thin_centre, thin_first, thin_second};

use super::centre::centre_of;
use super::nearer::nearer_of;
use super::trunc::half;
use fixed::pixel::pix_round;

// The nearer of two centres beside the nearest pixel edge, one below it by `u_off` and one above it by `d_off`.
fn nearer_centre(centre: i32, u_off: i32, d_off: i32) -> i32
    requires { Between most_centre most_centre centre × Between 0 38 u_off × Between 0 38 d_off }
    ensures { result ≡ nearer_centre centre u_off d_off }
{
    let cur_pos1 = pix_round(centre);
    let lower = cur_pos1 - u_off;
    let upper = cur_pos1 + d_off;
    nearer_of(centre - lower, centre - upper, lower, upper)
}

// The centre chosen for a stem, by offsets that its width decides.
fn thin_centre(centre: i32, width: i32) -> i32
    requires { Between most_centre most_centre centre }
    ensures { result ≡ thin_centre centre width }
{
    if width <= 64 {
        return nearer_centre(centre, 32, 32);
    }
    nearer_centre(centre, 38, 26)
}

// The first edge, half the width before the centre chosen.
pub fn thin_first(start: i32, org_len: i32, width: i32) -> i32
    requires { Between most_start most_start start × Between most_length most_length org_len × Between most_width most_width width }
    ensures { result ≡ thin_first start org_len width }
{
    thin_centre(centre_of(start, org_len), width) - half(width)
}

// The second edge, half the width behind it: an odd width loses a unit.
pub fn thin_second(start: i32, org_len: i32, width: i32) -> i32
    requires { Between most_start most_start start × Between most_length most_length org_len × Between most_width most_width width }
    ensures { result ≡ thin_second start org_len width }
{
    thin_centre(centre_of(start, org_len), width) + half(width)
}
