// The first stem, which has no anchor.
ghost use Rattle.std.specs.Prelude.{◌≡◌, ◌+ℤ◌};
ghost use Rattle.signed.specs.Range.{Between};
ghost use Rattle.axis.specs.Limits.{most_units};
ghost use Rattle.stems_latin.specs.Latin.{most_length, most_width, free_first};

use super::thin::thin_first;
use fixed::pixel::pix_round;

// The position of its first edge. The second edge is linked to it.
pub fn free_first(opos: i32, org_len: i32, width: i32) -> i32
    requires { Between most_units most_units opos × Between most_length most_length org_len × Between most_width most_width width × Between most_units most_units (opos +ℤ org_len) }
    ensures { result ≡ free_first opos org_len width }
{
    if width < 96 {
        return thin_first(opos, org_len, width);
    }
    pix_round(opos)
}
