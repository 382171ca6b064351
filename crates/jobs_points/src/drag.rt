// One point dragged, call 20: from the words of its job to those of its answer.
ghost use Rattle.std.specs.Prelude.{◌≤◌, length};
ghost use Rattle.tool_lists.specs.Limits.{longest};

use khsaemudol::khs_drag_point;
use middle::bits::bits_of;
use tool_lines::limits::MOST_NUMBERS;
use tool_lists::list::{last_word, nth_list, put, put_list};
use tool_lists::number::{byte_word, read_bytes, read_indices};

// Drags the point of a job, whose currents are lent.
fn ask(words: &[i32], currents: &mut [i32]) -> u8 {
    let marks = nth_list(words, 2);
    let ends = nth_list(words, 3);
    let mut touched = [0u8; MOST_NUMBERS];
    let mut contours = [0u16; MOST_NUMBERS];
    read_bytes(marks, &mut touched);
    read_indices(ends, &mut contours);
    khs_drag_point(
        nth_list(words, 0),
        currents,
        &touched[0..marks.len()],
        &contours[0..ends.len()],
        bits_of(last_word(words)),
    )
}

// The answer to a job of a drag, whose point stands behind its four lists; the call is lent the answer's currents.
pub fn answer_drag(words: &[i32], out: &mut [i32]) -> usize
    requires { longest ≤ length out.old }
    ensures { result ≤ length out.old }
{
    let currents = nth_list(words, 1);
    let end = 2 + currents.len();
    put_list(out, 1, currents.len(), currents);
    let answer = ask(words, &mut out[2..end]);
    put(out, 0, &[byte_word(answer)]);
    end
}
