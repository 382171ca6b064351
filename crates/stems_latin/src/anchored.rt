// A stem beside an anchor, its second edge not done.
ghost use Rattle.std.specs.Prelude.{◌≡◌};
ghost use Rattle.signed.specs.Range.{Between};
ghost use Rattle.stems_latin.specs.Latin.{most_start, most_length, most_width, anchored_first, anchored_second};

use super::thin::{thin_first, thin_second};
use super::wide::wide_first;

// The position of the first edge.
pub fn anchored_first(start: i32, org_len: i32, width: i32) -> i32
    requires { Between most_start most_start start × Between most_length most_length org_len × Between most_width most_width width }
    ensures { result ≡ anchored_first start org_len width }
{
    if width < 96 {
        return thin_first(start, org_len, width);
    }
    wide_first(start, org_len, width)
}

// The position of the second edge, by that of the first: a wide stem has its whole width, a thin one loses a unit of an odd width.
pub fn anchored_second(start: i32, org_len: i32, width: i32, first: i32) -> i32
    requires between { Between most_start most_start start × Between most_length most_length org_len × Between most_width most_width width }
    requires first_value { first ≡ anchored_first start org_len width }
    ensures { result ≡ anchored_second start org_len width }
{
    if 96 <= width {
        return first + width;
    }
    thin_second(start, org_len, width)
}
