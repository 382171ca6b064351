// Jobs of frames, calls 25 and 26: from the words of their jobs to those of their answers. A tool, for comparisons: proved safe.
#![tactic(auto)]

ghost use Rattle.std.specs.Prelude.{◌≤◌, length};

use axis::accept::least;
use khsaemudol::{khs_read_frame, khs_write_frame};
use log_frame::limits::MOST_COUNTED;
use tool_lines::limits::MOST_NUMBERS;
use tool_lists::list::{nth_list, put, put_list};
use tool_lists::number::{byte_word, put_bytes, put_indices, read_bytes, read_indices};
use words::word::count_word;

// Writes the frame of a job's outline into a line.
fn ask_write(words: &[i32], line: &mut [u8], digits: &mut u32) -> u8 {
    let marks = nth_list(words, 2);
    let ends = nth_list(words, 3);
    let mut touched = [0u8; MOST_NUMBERS];
    let mut contours = [0u16; MOST_NUMBERS];
    read_bytes(marks, &mut touched);
    read_indices(ends, &mut contours);
    khs_write_frame(
        nth_list(words, 0),
        nth_list(words, 1),
        &touched[0..marks.len()],
        &contours[0..ends.len()],
        line,
        digits,
    )
}

// Makes the call on a lent line, and writes the line behind the answer and the count of digits.
fn answer_lent(words: &[i32], out: &mut [i32], line: &mut [u8]) -> usize
    ensures { result ≤ length out.old }
{
    let mut digits: u32 = 0;
    let answer = ask_write(words, line, &mut digits);
    put(out, 0, &[byte_word(answer), count_word(digits as usize)]);
    put_bytes(out, 2, line)
}

// The answer to a job of writing, whose five lists stand one behind the other, the last of them the line as it is lent.
pub fn answer_write(words: &[i32], out: &mut [i32]) -> usize
    ensures { result ≤ length out.old }
{
    let given = nth_list(words, 4);
    let n = given.len();
    let mut line = [0u8; MOST_NUMBERS];
    read_bytes(given, &mut line);
    answer_lent(words, out, &mut line[0..n])
}

// The answer to a job of reading: four lists, empty beside a refusal.
pub fn answer_read(words: &[i32], out: &mut [i32]) -> usize
    ensures { result ≤ length out.old }
{
    let given = nth_list(words, 0);
    let n = given.len();
    let mut line = [0u8; MOST_NUMBERS];
    read_bytes(given, &mut line);
    let mut originals = [0i32; MOST_COUNTED];
    let mut currents = [0i32; MOST_COUNTED];
    let mut marks = [0u8; MOST_COUNTED];
    let mut ends = [0u16; MOST_COUNTED];
    let mut points: u32 = 0;
    let mut contours: u32 = 0;
    let answer = khs_read_frame(
        &line[0..n],
        &mut originals,
        &mut currents,
        &mut marks,
        &mut ends,
        &mut points,
        &mut contours,
    );
    let m = least(points as usize, MOST_COUNTED);
    let k = least(contours as usize, MOST_COUNTED);
    let at = put(out, 0, &[byte_word(answer)]);
    let at = put_list(out, at, m, &originals[0..m]);
    let at = put_list(out, at, m, &currents[0..m]);
    let at = put_bytes(out, at, &marks[0..m]);
    put_indices(out, at, &ends[0..k])
}
