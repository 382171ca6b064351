// Weak points, call 3: from the words of its job to those of its answer.
ghost use Rattle.std.specs.Prelude.{◌≤◌, length};
ghost use Rattle.tool_lines.specs.Limits.{most_numbers};
ghost use Rattle.tool_lists.specs.Limits.{longest};

use khsaemudol::khs_align_weak_points;
use tool_lines::limits::MOST_NUMBERS;
use tool_lists::list::{nth_list, put, put_list};
use tool_lists::number::{read_bytes, read_indices};

// Aligns the outline that four lists give.
fn ask(originals: &[i32], currents: &mut [i32], marks: &[i32], ends: &[i32]) -> u8
    requires { (length marks.now ≤ most_numbers) × (length ends.now ≤ most_numbers) }
{
    let mut touched = [0u8; MOST_NUMBERS];
    let mut contours = [0u16; MOST_NUMBERS];
    read_bytes(marks, &mut touched);
    read_indices(ends, &mut contours);
    let k = marks.len();
    let m = ends.len();
    khs_align_weak_points(originals, currents, &touched[0..k], &contours[0..m])
}

// The answer to a job of weak points, whose four lists stand one behind the other; the call is lent the answer's currents.
pub fn answer_weak(words: &[i32], out: &mut [i32]) -> usize
    requires { longest ≤ length out.old }
    ensures { result ≤ length out.old }
{
    let currents = nth_list(words, 1);
    let end = 2 + currents.len();
    put_list(out, 1, currents.len(), currents);
    let answer = ask(
        nth_list(words, 0),
        &mut out[2..end],
        nth_list(words, 2),
        nth_list(words, 3),
    );
    put(out, 0, &[answer as i32]);
    end
}
