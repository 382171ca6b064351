// Catalogues, call 17: from the words of its job to those of its answer.
ghost use Rattle.std.specs.Prelude.{◌≤◌, length};
ghost use Rattle.tool_lists.specs.Limits.{longest};

use khsaemudol::khs_align_catalogue;
use tool_lines::limits::MOST_NUMBERS;
use tool_lists::list::{nth_list, put, put_list};
use tool_lists::number::{put_bytes, read_bytes, read_indices};

// Aligns the catalogue of a job, whose currents and answers are lent.
fn ask(words: &[i32], currents: &mut [i32], answers: &mut [u8]) -> u8 {
    let marks = nth_list(words, 2);
    let ends = nth_list(words, 3);
    let points = nth_list(words, 4);
    let contours = nth_list(words, 5);
    let mut touched = [0u8; MOST_NUMBERS];
    let mut own_ends = [0u16; MOST_NUMBERS];
    let mut point_counts = [0u16; MOST_NUMBERS];
    let mut contour_counts = [0u16; MOST_NUMBERS];
    read_bytes(marks, &mut touched);
    read_indices(ends, &mut own_ends);
    read_indices(points, &mut point_counts);
    read_indices(contours, &mut contour_counts);
    khs_align_catalogue(
        nth_list(words, 0),
        currents,
        &touched[0..marks.len()],
        &own_ends[0..ends.len()],
        &point_counts[0..points.len()],
        &contour_counts[0..contours.len()],
        answers,
    )
}

// Makes the call on the answer's currents, and writes its answers behind them.
fn answer_lent(words: &[i32], out: &mut [i32], answers: &mut [u8]) -> usize
    requires { longest ≤ length out.old }
    ensures { result ≤ length out.old }
{
    let currents = nth_list(words, 1);
    let end = 2 + currents.len();
    put_list(out, 1, currents.len(), currents);
    let answer = ask(words, &mut out[2..end], answers);
    put(out, 0, &[answer as i32]);
    put_bytes(out, end, answers)
}

// The answer to a job of a catalogue, whose seven lists stand one behind the other.
pub fn answer_catalogue(words: &[i32], out: &mut [i32]) -> usize
    requires { longest ≤ length out.old }
    ensures { result ≤ length out.old }
{
    let given = nth_list(words, 6);
    let n = given.len();
    let mut answers = [0u8; MOST_NUMBERS];
    read_bytes(given, &mut answers);
    answer_lent(words, out, &mut answers[0..n])
}
