// Remembered references, calls 18 and 19: from the words of their jobs to those of their answers.
ghost use Rattle.std.specs.Prelude.{◌≤◌, length};
ghost use Rattle.tool_lists.specs.Limits.{longest};

use khsaemudol::{khs_align_with_references, khs_remember_references};
use tool_lines::limits::MOST_NUMBERS;
use tool_lists::list::{nth_list, put, put_list};
use tool_lists::number::{byte_word, put_indices, read_bytes, read_indices};

// Remembers by the marks and contour ends of a job, into lists that are lent.
fn remember(words: &[i32], before: &mut [u16], behind: &mut [u16]) -> u8 {
    let marks = nth_list(words, 0);
    let ends = nth_list(words, 1);
    let mut touched = [0u8; MOST_NUMBERS];
    let mut contours = [0u16; MOST_NUMBERS];
    read_bytes(marks, &mut touched);
    read_indices(ends, &mut contours);
    khs_remember_references(
        &touched[0..marks.len()],
        &contours[0..ends.len()],
        before,
        behind,
    )
}

// Remembers into the lists that are lent, and writes them behind the answer.
fn answer_lent(words: &[i32], out: &mut [i32], before: &mut [u16], behind: &mut [u16]) -> usize
    ensures { result ≤ length out.old }
{
    let answer = remember(words, before, behind);
    put(out, 0, &[byte_word(answer)]);
    let next = put_indices(out, 1, before);
    put_indices(out, next, behind)
}

// The answer to a job of remembering, whose four lists stand one behind the other.
pub fn answer_remember(words: &[i32], out: &mut [i32]) -> usize
    ensures { result ≤ length out.old }
{
    let first = nth_list(words, 2);
    let second = nth_list(words, 3);
    let n = first.len();
    let m = second.len();
    let mut before = [0u16; MOST_NUMBERS];
    let mut behind = [0u16; MOST_NUMBERS];
    read_indices(first, &mut before);
    read_indices(second, &mut behind);
    answer_lent(words, out, &mut before[0..n], &mut behind[0..m])
}

// Aligns the outline of a job, whose currents are lent, by its lists.
fn ask(words: &[i32], currents: &mut [i32]) -> u8 {
    let marks = nth_list(words, 2);
    let ends = nth_list(words, 3);
    let first = nth_list(words, 4);
    let second = nth_list(words, 5);
    let mut touched = [0u8; MOST_NUMBERS];
    let mut contours = [0u16; MOST_NUMBERS];
    let mut before = [0u16; MOST_NUMBERS];
    let mut behind = [0u16; MOST_NUMBERS];
    read_bytes(marks, &mut touched);
    read_indices(ends, &mut contours);
    read_indices(first, &mut before);
    read_indices(second, &mut behind);
    khs_align_with_references(
        nth_list(words, 0),
        currents,
        &touched[0..marks.len()],
        &contours[0..ends.len()],
        &before[0..first.len()],
        &behind[0..second.len()],
    )
}

// The answer to a job of aligning by lists, whose six lists stand one behind the other; the call is lent the answer's currents.
pub fn answer_with(words: &[i32], out: &mut [i32]) -> usize
    requires { longest ≤ length out.old }
    ensures { result ≤ length out.old }
{
    let currents = nth_list(words, 1);
    let end = 2 + currents.len();
    put_list(out, 1, currents.len(), currents);
    let answer = ask(words, &mut out[2..end]);
    put(out, 0, &[byte_word(answer)]);
    end
}
