// What the display shows, call 132: from the words of its job to those of its answer.
ghost use Rattle.std.specs.Prelude.{◌≤◌, length};

use khsaemudol::khs_count_shown;
use middle::bits::signed_of;
use tool_lines::limits::MOST_NUMBERS;
use tool_lists::list::{last_word, nth_list, put};
use tool_lists::number::{byte_word, read_bytes, read_indices};

// The answer to a job, whose four lists stand one behind the other, and the magnification behind them.
pub fn answer_shown(words: &[i32], out: &mut [i32]) -> usize
    ensures { result ≤ length out.old }
{
    let marks = nth_list(words, 2);
    let ends = nth_list(words, 3);
    let mut on = [0u8; MOST_NUMBERS];
    let mut contours = [0u16; MOST_NUMBERS];
    read_bytes(marks, &mut on);
    read_indices(ends, &mut contours);
    let mut black = 0;
    let mut euler = 0;
    let answer = khs_count_shown(
        nth_list(words, 0),
        nth_list(words, 1),
        &on[0..marks.len()],
        &contours[0..ends.len()],
        last_word(words),
        &mut black,
        &mut euler,
    );
    put(out, 0, &[byte_word(answer), signed_of(black), euler])
}
