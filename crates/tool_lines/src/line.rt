// A line of text as it is read: words of eight upper-case hexadecimal digits, nothing between them.
ghost use Rattle.std.specs.Prelude.{◌≤◌, length};
ghost use Rattle.tool_lines.specs.Limits.{most_words};

use super::limits::MOST_WORDS;
use middle::bits::signed_of;

// What has been read of a line: whether anything was, whether it can still be a job, its whole words, and the digits of the word that has begun.
#[derive(Clone, Copy)]
pub struct Line {
    pub begun: bool,
    pub broken: bool,
    pub words: usize,
    pub digits: usize,
    pub value: u32,
}

impl Line {
    // A line of which nothing has been read.
    pub fn new() -> Line {
        Line {
            begun: false,
            broken: false,
            words: 0,
            digits: 0,
            value: 0,
        }
    }
}

// The line that is no job, whatever follows.
fn broken() -> Line {
    Line {
        begun: true,
        broken: true,
        words: 0,
        digits: 0,
        value: 0,
    }
}

// The value of an upper-case hexadecimal digit, and 16 for any other byte.
fn digit(byte: u8) -> u32 {
    match byte {
        48..=57 => (byte - 48) as u32,
        65..=70 => (byte - 55) as u32,
        _ => 16,
    }
}

// The line with one byte more. A line of more words than the longest job has is broken.
pub fn feed(words: &mut [i32], line: Line, byte: u8) -> Line
    requires { most_words ≤ length words.old }
{
    let d = digit(byte);
    if line.broken {
        return broken();
    }
    if 16 <= d {
        return broken();
    }
    let value = line.value % 268435456 * 16 + d;
    let at = line.words;
    if MOST_WORDS <= at {
        return broken();
    }
    if line.digits < 7 {
        return Line {
            begun: true,
            broken: false,
            words: at,
            digits: line.digits + 1,
            value: value,
        };
    }
    words[at] = signed_of(value);
    Line {
        begun: true,
        broken: false,
        words: at + 1,
        digits: 0,
        value: 0,
    }
}

// How many words a line has where it is whole, and 0, which is no job, where it is not.
pub fn words_of(line: Line) -> usize
    ensures { result ≤ most_words }
{
    if line.broken {
        return 0;
    }
    if line.digits != 0 {
        return 0;
    }
    let n = line.words;
    if MOST_WORDS < n {
        return 0;
    }
    n
}
