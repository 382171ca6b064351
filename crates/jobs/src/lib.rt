// Jobs: one word list for every public call, and its answer, by the functions that gateways link or, for calls on tables, by value. A tool, for comparisons: proved safe. Lines of text are the part of `tool_lines` and of `replay`.
#![tactic(auto)]

pub mod answer;
pub mod call;
mod first;
mod lent;

ghost use Rattle.std.specs.Prelude.{◌≤◌, length};

use answer::{answer, answer_by_value};

// Jobs under a C name, for ./compare and ./bench.
#[unsafe(no_mangle)]
pub extern "C" fn jobs_answer(words: &[i32], out: &mut [i32]) -> usize
    ensures { result ≤ length out.old }
{
    answer(words, out)
}

// The same with the calls on tables by value.
#[unsafe(no_mangle)]
pub extern "C" fn jobs_answer_by_value(words: &[i32], out: &mut [i32]) -> usize
    ensures { result ≤ length out.old }
{
    answer_by_value(words, out)
}
