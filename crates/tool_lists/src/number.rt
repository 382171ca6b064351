// Lists of numbers as the narrower numbers that a call takes, and back.
ghost use Rattle.std.specs.Prelude.{◌≤◌, length};

use super::list::put;
use words::field::{index_at, short_at};
use words::word::{count_at, count_word};

// Writes the numbers of a list as bytes.
pub fn read_bytes(numbers: &[i32], bytes: &mut [u8])
    requires { length numbers.now ≤ length bytes.old }
{
    for i in 0..numbers.len() {
        bytes[i] = (count_at(numbers, i) % 256) as u8;
    }
}

// Writes the numbers of a list as indices or counts.
pub fn read_indices(numbers: &[i32], indices: &mut [u16])
    requires { length numbers.now ≤ length indices.old }
{
    for i in 0..numbers.len() {
        indices[i] = index_at(numbers, i);
    }
}

// Writes the numbers of a list as 16-bit numbers.
pub fn read_shorts(numbers: &[i32], shorts: &mut [i16])
    requires { length numbers.now ≤ length shorts.old }
{
    for i in 0..numbers.len() {
        shorts[i] = short_at(numbers, i);
    }
}

// A byte as a word.
pub fn byte_word(byte: u8) -> i32 {
    byte as i32
}

// Writes a count and as many bytes, a word each, from a place on, and tells the place behind them; where there is no room it tells 0.
pub fn put_bytes(out: &mut [i32], at: usize, bytes: &[u8]) -> usize
    ensures { result ≤ length out.old }
{
    let counted = [count_word(bytes.len())];
    let next = put(out, at, &counted);
    if out.len() - next < bytes.len() {
        return 0;
    }
    for (i, byte) in bytes.iter().enumerate() {
        out[next + i] = byte_word(*byte);
    }
    next + bytes.len()
}

// An index as a word.
fn index_word(index: u16) -> i32 {
    index as i32
}

// Writes a count and as many indices, a word each, from a place on, and tells the place behind them; where there is no room it tells 0.
pub fn put_indices(out: &mut [i32], at: usize, indices: &[u16]) -> usize
    ensures { result ≤ length out.old }
{
    let counted = [count_word(indices.len())];
    let next = put(out, at, &counted);
    if out.len() - next < indices.len() {
        return 0;
    }
    for (i, index) in indices.iter().enumerate() {
        out[next + i] = index_word(*index);
    }
    next + indices.len()
}
