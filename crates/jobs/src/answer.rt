// The answer to a job, from the call that it names.
ghost use Rattle.std.specs.Prelude.{◌≤◌, length};

use super::call::job_of;
use super::lent::answer_lent;
use jobs_fit::edge_points_job::answer_edge_points;
use jobs_fit::strong_job::answer_strong;
use jobs_fit::whole::answer_fit;
use jobs_log::{answer_read, answer_write};
use jobs_points::catalogue::answer_catalogue;
use jobs_points::drag::answer_drag;
use jobs_points::path_job::{answer_path, answer_step};
use jobs_points::references::{answer_remember, answer_with};
use jobs_points::shown_job::answer_shown;
use jobs_points::weak_job::answer_weak;
use jobs_tables::gaps_job::answer_gaps;
use jobs_tables::mending::answer_mending;
use jobs_tables::pack_job::answer_pack;
use jobs_tables::table::answer_table;
use khsaemudol::{khs_compute_mid_delta, khs_compute_mid_pos};
use tool_lists::limits::LONGEST;
use tool_lists::list::put;
use words::field::short_word;
use words::word::word_at;

// The middle of two coordinates, or half their difference.
fn middle(call: usize, min: i32, max: i32) -> i32 {
    if call == 1 {
        return short_word(khs_compute_mid_pos(min, max));
    }
    short_word(khs_compute_mid_delta(min, max))
}

// The answer to a job of a middle.
fn answer_middle(call: usize, words: &[i32], out: &mut [i32]) -> usize
    ensures { result ≤ length out.old }
{
    put(
        out,
        0,
        &[0, middle(call, word_at(words, 1), word_at(words, 2))],
    )
}

// Writes the answer to a word list into a buffer, with the calls on tables by value or by the library, and tells how many words it has; 0 in a buffer that is too short
// for some answer.
fn answer_to(by_value: bool, words: &[i32], out: &mut [i32]) -> usize
    ensures { result ≤ length out.old }
{
    if out.len() < LONGEST {
        return 0;
    }
    let call = job_of(words);
    match call {
        0 => put(out, 0, &[-1]),
        1 | 2 => answer_middle(call, words, out),
        3 => answer_weak(words, out),
        15 => answer_path(words, out),
        16 => answer_step(words, out),
        17 => answer_catalogue(words, out),
        18 => answer_remember(words, out),
        19 => answer_with(words, out),
        20 => answer_drag(words, out),
        25 => answer_write(words, out),
        26 => answer_read(words, out),
        114 => answer_lent(words, out),
        121 => answer_mending(words, out),
        123 => answer_pack(words, out),
        127 => answer_gaps(by_value, words, out),
        128 => answer_edge_points(words, out),
        129 => answer_fit(words, out),
        130 => answer_table(false, call, words, out),
        131 => answer_strong(words, out),
        132 => answer_shown(words, out),
        _ => answer_table(by_value, call, words, out),
    }
}

// Writes the library's answer to a word list into a buffer, and tells how many words it has; 0 in a buffer that is too short for some answer.
pub fn answer(words: &[i32], out: &mut [i32]) -> usize
    ensures { result ≤ length out.old }
{
    answer_to(false, words, out)
}

// The same with the calls on tables by value.
pub fn answer_by_value(words: &[i32], out: &mut [i32]) -> usize
    ensures { result ≤ length out.old }
{
    answer_to(true, words, out)
}

// Stands for an answer that the library and the calls by value give differently: no answer begins with it.
const DIFFERS: i32 = -2;

// Whether the first n words of a list are the first m of another.
fn same_words(one: &[i32], n: usize, two: &[i32], m: usize) -> bool {
    n == m && (0..n).all(|i| word_at(one, i) == word_at(two, i))
}

// Writes the library's answer to a word list where the calls by value give the same, and else the word that begins no answer.
pub fn answer_both(words: &[i32], out: &mut [i32]) -> usize
    ensures { result ≤ length out.old }
{
    let mut other = [0i32; LONGEST];
    let count = answer(words, out);
    let by_value = answer_by_value(words, &mut other);
    if same_words(out, count, &other, by_value) {
        return count;
    }
    put(out, 0, &[DIFFERS])
}
