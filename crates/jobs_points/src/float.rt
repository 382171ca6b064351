// Floats as words.
use middle::bits::signed_of;

// The bits of a float, and 0 for what is no number.
fn float_bits(x: f32) -> u32 {
    if x != x {
        return 0;
    }
    f32::to_bits(x)
}

// A float as the word of its bits.
pub fn float_word(x: f32) -> i32 {
    signed_of(float_bits(x))
}
