// An answer as a line of text.
ghost use Rattle.std.specs.Prelude.{◌≤◌, ◌+◌, length};
ghost use Rattle.replay.specs.Limits.{most_text};

use middle::bits::bits_of;
use tool_lists::limits::LONGEST;

// Bytes of the longest answer: eight digits a word, and a line feed.
pub const MOST_TEXT: usize = 8 * LONGEST + 1;

// The upper-case hexadecimal digit of a value, which counts modulo 16.
fn letter(value: u32) -> u8 {
    let d = (value % 16) as u8;
    if d < 10 {
        return 48 + d;
    }
    55 + d
}

// Writes the eight digits of a word.
fn spell_word(text: &mut [u8], at: usize, word: i32)
    requires { at + 8 ≤ length text.old }
{
    let bits = bits_of(word);
    text[at] = letter(bits / 268435456);
    text[at + 1] = letter(bits / 16777216);
    text[at + 2] = letter(bits / 1048576);
    text[at + 3] = letter(bits / 65536);
    text[at + 4] = letter(bits / 4096);
    text[at + 5] = letter(bits / 256);
    text[at + 6] = letter(bits / 16);
    text[at + 7] = letter(bits);
}

// Writes the first n words, of which the longest answer has the most, and a line feed, and tells how many bytes that is.
pub fn spell(words: &[i32], n: usize, text: &mut [u8]) -> usize
    requires { most_text ≤ length text.old }
    ensures { result ≤ most_text }
{
    for i in 0..n {
        if LONGEST <= i {
            return 0;
        }
        if words.len() <= i {
            return 0;
        }
        spell_word(text, i * 8, words[i]);
    }
    text[n * 8] = 10;
    n * 8 + 1
}
