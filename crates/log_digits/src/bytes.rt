// Bytes of two digits, and numbers of two bytes, the high one first.
ghost use Rattle.std.specs.Prelude.{◌≡◌, [], ◌∷◌, ◌+◌, ◌<◌, ◌≤◌, length};
ghost use Rattle.std.specs.Int.{w16};
ghost use Rattle.std.proofs.Common.{SFits, of_z};
ghost use Rattle.log_digits.specs.Digits.{digits_for, byte_at, written, high_of, low_of, number_of, number_at};

use super::digit::{digit_of, value_of};

// The byte at a place.
pub fn byte_at(line: &[u8], at: usize) -> u8
    requires { digits_for (at + 1) ≤ length line.now }
    ensures { result ≡ byte_at line.now at }
{
    let high = value_of(line[2 * at]);
    let low = value_of(line[2 * at + 1]);
    16 * high + low
}

// The number of two bytes.
fn number_of(high: u8, low: u8) -> i32
    ensures { result ≡ number_of high low }
{
    let bits = high as i32 * 256 + low as i32;
    if bits < 32768 {
        return bits;
    }
    bits - 65536
}

// The number whose bytes stand from a place on.
pub fn number_at(line: &[u8], at: usize) -> i32
    requires { digits_for (at + 2) ≤ length line.now }
    ensures { result ≡ number_at line.now at }
{
    let high = byte_at(line, at);
    let low = byte_at(line, at + 1);
    number_of(high, low)
}

// Writes a byte at its place.
pub fn put_byte(line: &mut [u8], at: usize, byte: u8)
    requires { digits_for (at + 1) ≤ length line.old }
    ensures { line.new ≡ written line.old at (byte ∷ []) }
{
    line[2 * at] = digit_of(byte / 16);
    line[2 * at + 1] = digit_of(byte % 16);
}

// The bits of a number that two bytes hold.
fn bits_of(number: i32) -> u16
    requires { SFits w16 number }
    ensures { result ≡ of_z w16 number }
{
    if number < 0 {
        return (number + 65536) as u16;
    }
    number as u16
}

// Writes a number from its place on.
pub fn put_number(line: &mut [u8], at: usize, number: i32)
    requires { (digits_for (at + 2) ≤ length line.old) × SFits w16 number }
    ensures { line.new ≡ written line.old at (high_of number ∷ low_of number ∷ []) }
{
    let bits = bits_of(number);
    put_byte(line, at, (bits / 256) as u8);
    put_byte(line, at + 1, (bits % 256) as u8);
}
