// A row's job, answered and compared.
use super::number::numbers;
use jobs::answer::answer;
use tool_lists::limits::LONGEST;
use tool_lists::list::part;
use words::word::word_at;

// The words of the longest job and of the longest answer that a row has.
const ROOM: usize = 80;

// The number of standard output.
const STDOUT_FILENO: i32 = 1;

// Writes bytes to standard output.
pub fn text(bytes: &[u8]) {
    io::write_all(STDOUT_FILENO, bytes);
}

// Whether a buffer begins with an answer of as many words as were told.
fn begins(out: &[i32], told: usize, expected: &[i32]) -> bool {
    told == expected.len() && (0..told).all(|i| word_at(out, i) == word_at(expected, i))
}

// Answers a job, and tells beside the row's text whether the answer is the one that is expected.
pub fn row(title: &[u8], job: &[u8], expected: &[u8]) {
    let mut asked = [0i32; ROOM];
    let mut due = [0i32; ROOM];
    let n = numbers(job, &mut asked);
    let m = numbers(expected, &mut due);
    let mut out = [0i32; LONGEST];
    let job = part(&asked, 0, n);
    let told = answer(job, &mut out);
    let expected = part(&due, 0, m);
    if begins(&out, told, expected) {
        text(b"agrees   ");
    } else {
        text(b"DIFFERS  ");
    }
    text(title);
    text(b"\n");
}
