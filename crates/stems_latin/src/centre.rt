// The centre of a stem.
ghost use Rattle.std.specs.Prelude.{◌≡◌};
ghost use Rattle.signed.specs.Range.{Between};
ghost use Rattle.stems_latin.specs.Latin.{most_start, most_length, centre_of};

use super::floor::half;

// By its start and its original length.
pub fn centre_of(start: i32, org_len: i32) -> i32
    requires { Between most_start most_start start × Between most_length most_length org_len }
    ensures { result ≡ centre_of start org_len }
{
    start + half(org_len)
}
