// The reply to one line of a log: one line of digits.
ghost use Rattle.std.specs.Prelude.{◌≤◌, true, length};
ghost use Rattle.log_digits.specs.Digits.{digits_for};
ghost use Rattle.log_text.specs.Answer.{done_size, most_results, Puts};
ghost use Rattle.log_reply.specs.Reply.{line_bytes, Replies};

use log_frame::limits::MOST_COUNTED;
use log_frame::read::read_frame;
use log_lines::cutter::LINE_FEED;
use log_text::answer::answer_job;
use log_text::text::put_refusal;
use refusals::order::Refusal;

// Bytes of the longest reply, 1,535: the digits of 81, the count and 255 results, and a line feed.
pub const MOST_REPLY: usize = 2 * (2 + 3 * MOST_COUNTED) + 1;

// Answers a line that has its line feed, and hands back how many bytes the answer has.
fn answer_line(line: &[u8], out: &mut [u8]) -> usize
    requires { digits_for (done_size most_results) ≤ length out.old }
    ensures { Puts (line_bytes line.now true) out.old result out.new }
{
    let mut originals = [0i32; MOST_COUNTED];
    let mut currents = [0i32; MOST_COUNTED];
    let mut marks = [0u8; MOST_COUNTED];
    let mut ends = [0u16; MOST_COUNTED];
    let read = read_frame(line, &mut originals, &mut currents, &mut marks, &mut ends);
    let counts = match read {
        Ok(counts) => counts,
        Err(refusal) => return put_refusal(out, u8::from(refusal)),
    };
    let n = counts.points;
    let k = counts.contours;
    answer_job(
        &originals[..n],
        &mut currents[..n],
        &marks[..n],
        &ends[..k],
        out,
    )
}

// Answers a line: one that has no line feed is not a whole frame.
fn answer_any(line: &[u8], ended: bool, out: &mut [u8]) -> usize
    requires { digits_for (done_size most_results) ≤ length out.old }
    ensures { Puts (line_bytes line.now ended) out.old result out.new }
{
    if ended {
        return answer_line(line, out);
    }
    put_refusal(out, u8::from(Refusal::NotFrame))
}

// Writes the reply to a line, which is given without its line feed and with whether it had one, and hands back how many bytes that is. Where there is no room for the
// longest reply, nothing is written, and 0 is handed back.
pub fn reply_to(line: &[u8], ended: bool, out: &mut [u8]) -> usize
    ensures { Replies line.now ended out.old result out.new }
{
    if out.len() < MOST_REPLY {
        return 0;
    }
    let digits = 2 * answer_any(line, ended, out);
    out[digits] = LINE_FEED;
    digits + 1
}
