// Whether words are those of their fields.
ghost use Rattle.std.specs.Prelude.{◌≡◌};
ghost use Rattle.words_call.specs.Lent.{both_in, choices};

use words_shape::field::{CHOICE, Range, is_in};

// Whether two words are within one field's values.
pub fn both_in(a: i32, b: i32, range: Range) -> bool
    ensures { result ≡ both_in range a b }
{
    is_in(a, range) && is_in(b, range)
}

// Whether three words are choices.
pub fn are_choices(a: i32, b: i32, c: i32) -> bool
    ensures { result ≡ choices a b c }
{
    is_in(a, CHOICE) && both_in(b, c, CHOICE)
}
