// Paths, calls 15 and 16: from the words of their jobs to those of their answers.
ghost use Rattle.std.specs.Prelude.{◌≤◌, length};

use super::float::float_word;
use khsaemudol::{khs_path, khs_path_step};
use middle::bits::{bits_of, signed_of};
use tool_lines::limits::MOST_NUMBERS;
use tool_lists::list::{last_word, nth_list, put};
use tool_lists::number::{byte_word, read_bytes, read_indices};

// The steps that the longest lists of a job ask room for, and their floats.
const MOST_STEPS: usize = 3 * MOST_NUMBERS;

const MOST_FLOATS: usize = 4 * MOST_STEPS;

// The answer to a whole path, and how many steps it has.
#[derive(Clone, Copy)]
struct Steps {
    answer: u8,
    count: u32,
}

// How many floats a step of a kind has in an answer.
fn floats_of(kind: u8) -> usize {
    match kind {
        1 | 2 => 2,
        3 => 4,
        _ => 0,
    }
}

// A kind of a list, and 0 beyond it.
fn kind_at(kinds: &[u8], i: usize) -> u8 {
    if kinds.len() <= i {
        return 0;
    }
    kinds[i]
}

// The word of a float of a list, and 0 beyond it.
fn float_at(places: &[f32], i: usize) -> i32 {
    if places.len() <= i {
        return 0;
    }
    float_word(places[i])
}

// The words of the floats of a step.
fn floats_at(places: &[f32], step: u32) -> [i32; 4] {
    let at = 4 * (step as usize);
    [
        float_at(places, at),
        float_at(places, at + 1),
        float_at(places, at + 2),
        float_at(places, at + 3),
    ]
}

// Writes a step's kind and its floats from a place on, and tells the place behind them.
fn put_step(out: &mut [i32], at: usize, kinds: &[u8], places: &[f32], step: u32) -> usize
    ensures { result ≤ length out.old }
{
    let kind = kind_at(kinds, step as usize);
    let floats = floats_at(places, step);
    let next = put(out, at, &[byte_word(kind)]);
    match floats_of(kind) {
        0 => next,
        2 => put(out, next, &[floats[0], floats[1]]),
        _ => put(out, next, &floats),
    }
}

// Writes so many steps behind the answer and the count, and tells the place behind them.
fn put_steps(out: &mut [i32], kinds: &[u8], places: &[f32], count: u32) -> usize
    ensures { result ≤ length out.old }
{
    let mut at = put(out, 1, &[signed_of(count)]);
    for step in 0..count {
        at = put_step(out, at, kinds, places, step);
    }
    at
}

// Makes the call on the outline of a job.
fn ask(words: &[i32], kinds: &mut [u8], places: &mut [f32]) -> Steps {
    let marks = nth_list(words, 2);
    let ends = nth_list(words, 3);
    let mut on = [0u8; MOST_NUMBERS];
    let mut contours = [0u16; MOST_NUMBERS];
    read_bytes(marks, &mut on);
    read_indices(ends, &mut contours);
    let mut count = 0;
    let answer = khs_path(
        nth_list(words, 0),
        nth_list(words, 1),
        &on[0..marks.len()],
        &contours[0..ends.len()],
        kinds,
        places,
        &mut count,
    );
    Steps { answer, count }
}

// The answer to a job of a whole path, whose four lists stand one behind the other.
pub fn answer_path(words: &[i32], out: &mut [i32]) -> usize
    ensures { result ≤ length out.old }
{
    let mut kinds = [0u8; MOST_STEPS];
    let mut places = [0.0f32; MOST_FLOATS];
    let steps = ask(words, &mut kinds, &mut places);
    put(out, 0, &[byte_word(steps.answer)]);
    put_steps(out, &kinds, &places, steps.count)
}

// The answer to a job of one step.
pub fn answer_step(words: &[i32], out: &mut [i32]) -> usize
    ensures { result ≤ length out.old }
{
    let marks = nth_list(words, 2);
    let ends = nth_list(words, 3);
    let mut on = [0u8; MOST_NUMBERS];
    let mut contours = [0u16; MOST_NUMBERS];
    read_bytes(marks, &mut on);
    read_indices(ends, &mut contours);
    let cursor = bits_of(last_word(words));
    let mut kind = 0;
    let mut places = [0.0f32; 4];
    let mut next = cursor;
    let answer = khs_path_step(
        nth_list(words, 0),
        nth_list(words, 1),
        &on[0..marks.len()],
        &contours[0..ends.len()],
        cursor,
        &mut kind,
        &mut places,
        &mut next,
    );
    put(
        out,
        0,
        &[
            byte_word(answer),
            byte_word(kind),
            float_word(places[0]),
            float_word(places[1]),
            float_word(places[2]),
            float_word(places[3]),
            signed_of(next),
        ],
    )
}
