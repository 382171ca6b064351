// Texts, numbers, positions and refusals, written to standard output.
ghost use Rattle.std.specs.Prelude.{◌≤◌};

use middle::bits::bits_of;
use words::word::{size_of, word_at};

// The number of standard output.
const STDOUT_FILENO: i32 = 1;

// Writes bytes to standard output.
pub fn text(bytes: &[u8]) {
    io::write_all(STDOUT_FILENO, bytes);
}

// Writes a count in decimal.
fn count(n: usize) {
    io::print_decimal(STDOUT_FILENO, n as u64);
}

// The magnitude of a number.
fn size(x: i32) -> usize {
    if x < 0 {
        return std::num::wrapping_sub_u32(0, bits_of(x)) as usize;
    }
    size_of(x)
}

// Writes a space in front of a number below a bound.
fn pad(n: usize, bound: usize) {
    if n < bound {
        text(b" ");
    }
}

// Writes a number behind a minus or a space, in three columns.
fn signed(negative: bool, n: usize) {
    pad(n, 10);
    if negative {
        text(b"-");
    } else {
        text(b" ");
    }
    count(n);
}

// Writes a number of up to three digits and its sign in four columns.
fn whole(negative: bool, n: usize) {
    pad(n, 100);
    signed(negative, n);
}

// Writes a font position, in four columns.
fn font(x: i32) {
    whole(x < 0, size(x));
}

// Writes a position in pixels and 64ths, in ten columns.
fn position(x: i32) {
    let n = size(x);
    if n % 64 == 0 {
        text(b"      ");
        whole(x < 0, n / 64);
        return;
    }
    if n < 64 {
        text(b"    ");
        signed(x < 0, n);
    } else {
        whole(x < 0, n / 64);
        signed(false, n % 64);
    }
    text(b"/64");
}

// Writes a width in pixels and 64ths.
fn extent(x: i32) {
    let n = size(x);
    if x < 0 {
        text(b"-");
    }
    if n % 64 == 0 {
        count(n / 64);
        return;
    }
    if 64 <= n {
        count(n / 64);
        text(b" ");
    }
    count(n % 64);
    text(b"/64");
}

// Writes up to seven digits behind a point, of ten-millionths, and no zeros at the end.
fn fraction(ten_millionths: usize) {
    let mut rest = ten_millionths;
    for _ in 0..7 {
        if rest == 0 {
            return;
        }
        count(rest / 1000000);
        rest = rest % 1000000 * 10;
    }
}

// Writes a number of 128ths as a decimal.
fn decimal(n: usize) {
    count(n / 128);
    let rest = n % 128;
    if 0 < rest {
        text(b".");
        fraction(78125 * rest);
    }
}

// How many whole 128ths a number has, where it is not below zero and 128 of it are below 2^64; else 0.
fn in_128ths(x: f32) -> usize {
    let n = x * 128.0;
    if n > -1.0 {
        if n < 18446744073709551616.0 {
            return std::num::truncating_f32_to_u64(n) as usize;
        }
    }
    0
}

// Writes a place of a path, which is a whole number of 128ths of a pixel, as the decimal that it is.
pub fn place(x: f32) {
    if x < 0.0 {
        text(b"-");
        decimal(in_128ths(-x));
        return;
    }
    decimal(in_128ths(x));
}

// Writes a byte of a text, or in its place a number: # a count, ^ a number in four columns, @ a position, ~ a width. Tells how many numbers that took.
fn mark(byte: u8, x: i32) -> usize
    ensures { result ≤ 1 }
{
    match byte {
        35 => count(size_of(x)),
        94 => font(x),
        64 => position(x),
        126 => extent(x),
        _ => {
            let bytes = [byte];
            text(&bytes);
            return 0;
        }
    }
    1
}

// Writes a text with numbers in the places of its marks.
pub fn show(template: &[u8], numbers: &[i32]) {
    let mut k = 0;
    for byte in template {
        k += mark(*byte, word_at(numbers, k));
    }
}

// Writes what a refusal of the library means.
fn refusal(answer: u8) {
    match answer {
        1 => text(b"refused by 1: a list is too long, or the point lists differ in length"),
        2 => text(b"refused by 2: a number or the width rule's list is outside its limits"),
        3 => text(b"refused by 3: a contour end breaks its rule, or an index is beyond its list"),
        4 => text(
            b"refused by 4: a coordinate, position, score, len or delta is outside its limits",
        ),
        5 => text(b"refused by 5: no room for one edge more"),
        8 => text(b"refused by 8: a position is out of reach, or a quotient too steep"),
        _ => text(b"refused by 255: a word is none of its field's values"),
    }
}

// Begins the line of a step, ends it where the step was refused, and tells whether it was.
pub fn refused(step: &[u8], answer: u8) -> bool {
    text(step);
    if answer == 0 {
        return false;
    }
    refusal(answer);
    text(b"; the steps behind it are left out\n");
    true
}
