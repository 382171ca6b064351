// The words of a job or an answer, read from the text of a row: decimal numbers, a minus in front of those below zero.
ghost use Rattle.std.specs.Prelude.{◌≤◌};

use middle::bits::signed_of;

// What has been read of a text: how many numbers are whole, and of the one that has begun its digits, whether there is any, and its sign.
#[derive(Clone, Copy)]
struct Reading {
    count: usize,
    value: u32,
    begun: bool,
    minus: bool,
}

// The number of a value and a sign.
fn number(value: u32, minus: bool) -> i32 {
    if minus {
        return signed_of(std::num::wrapping_sub_u32(0, value));
    }
    signed_of(value)
}

// The reading behind a digit.
fn with_digit(read: Reading, digit: u8) -> Reading
    requires { digit ≤ 9 }
{
    Reading {
        count: read.count,
        value: read.value % 100000000 * 10 + digit as u32,
        begun: true,
        minus: read.minus,
    }
}

// The reading in front of a number, behind so many.
fn behind(count: usize) -> Reading {
    Reading {
        count,
        value: 0,
        begun: false,
        minus: false,
    }
}

// The reading behind a number, which is written where it has a digit and there is room.
fn ended(words: &mut [i32], read: Reading) -> Reading {
    let at = read.count;
    if !read.begun {
        return behind(at);
    }
    if words.len() <= at {
        return behind(at);
    }
    words[at] = number(read.value, read.minus);
    behind(at + 1)
}

// The reading behind one byte more: a digit, a minus, or what stands between two numbers.
fn feed(words: &mut [i32], read: Reading, byte: u8) -> Reading {
    match byte {
        45 => Reading {
            count: read.count,
            value: 0,
            begun: false,
            minus: true,
        },
        48..=57 => with_digit(read, byte - 48),
        _ => ended(words, read),
    }
}

// Writes the numbers of a text into a buffer, as many as there is room for, and tells how many they are.
pub fn numbers(text: &[u8], words: &mut [i32]) -> usize {
    let mut read = behind(0);
    for byte in text {
        read = feed(words, read, *byte);
    }
    let read = ended(words, read);
    read.count
}
