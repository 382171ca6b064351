// Parts of word lists, read and written. Where there is no room nothing is, so that these ask nothing of who calls them.
ghost use Rattle.std.specs.Prelude.{◌≤◌, length};
ghost use Rattle.tool_lines.specs.Limits.{most_numbers};

use axis::accept::least;
use tool_lines::limits::MOST_NUMBERS;
use words::word::{count_at, count_word, word_at, write_words};

// The n words from a place on, and none where there are not as many.
pub fn part(words: &[i32], at: usize, n: usize) -> &[i32]
    ensures { length result.now ≤ n }
{
    if words.len() < at {
        return &words[0..0];
    }
    if words.len() - at < n {
        return &words[0..0];
    }
    &words[at..at + n]
}

// The words from a place on.
pub fn tail(words: &[i32], at: usize) -> &[i32] {
    if words.len() < at {
        return &words[0..0];
    }
    &words[at..]
}

// The numbers of the list whose count stands at a place.
pub fn list_at(words: &[i32], at: usize) -> &[i32]
    requires { at ≤ 65536 }
    ensures { length result.now ≤ most_numbers }
{
    part(words, at + 1, least(count_at(words, at), MOST_NUMBERS))
}

// The list k of a job whose lists stand one behind the other from its second word on; the call with the most has seven.
pub fn nth_list(words: &[i32], k: usize) -> &[i32]
    requires { k ≤ 6 }
    ensures { length result.now ≤ most_numbers }
{
    let mut at = 1;
    for _ in 0..k {
        at += 1 + least(count_at(words, at), MOST_NUMBERS);
    }
    list_at(words, at)
}

// The last word of a job, and 0 where it has none.
pub fn last_word(words: &[i32]) -> i32 {
    if words.len() == 0 {
        return 0;
    }
    word_at(words, words.len() - 1)
}

// Writes words from a place on, and tells the place behind them; where there is no room it writes nothing and tells 0.
pub fn put(out: &mut [i32], at: usize, words: &[i32]) -> usize
    ensures { result ≤ length out.old }
{
    if out.len() < at {
        return 0;
    }
    if out.len() - at < words.len() {
        return 0;
    }
    write_words(out, at, words);
    at + words.len()
}

// Writes a count and the words of a list from a place on, and tells the place behind them.
pub fn put_list(out: &mut [i32], at: usize, count: usize, words: &[i32]) -> usize
    ensures { result ≤ length out.old }
{
    let counted = [count_word(count)];
    let next = put(out, at, &counted);
    put(out, next, words)
}
