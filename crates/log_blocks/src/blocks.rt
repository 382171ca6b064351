// The replies to the lines that end in a block. Of a line that has begun the beginning is held, one byte more than a frame can have, so that a longer line is known.
ghost use Rattle.std.specs.Prelude.{◌+◌, ◌<◌, ◌≤◌, length};
ghost use Rattle.log_frame.specs.Limits.{most_digits};
ghost use Rattle.log_reply.specs.Reply.{reply, most_reply};
ghost use Rattle.log_blocks.specs.Printed.{Appends, Refits, Rests};

use log_frame::limits::MOST_DIGITS;
use log_lines::cutter::take_line;
use log_reply::reply::{MOST_REPLY, reply_to};

// Bytes of a line that are held, 3,067.
pub const MOST_HELD: usize = MOST_DIGITS + 1;

// The place behind what was answered of the block, how many bytes are held of the line that has begun, and how many bytes the replies have.
#[derive(Clone, Copy)]
pub struct Refitted {
    pub at: usize,
    pub count: usize,
    pub size: usize,
}

// Writes the reply to a line behind the first `size` bytes, and hands back how many bytes there are then.
fn append_reply(line: &[u8], ended: bool, out: &mut [u8], size: usize) -> usize
    requires { size + most_reply ≤ length out.old }
    ensures { Appends (reply line.now ended) out.old size result out.new }
{
    let more = reply_to(line, ended, &mut out[size..]);
    size + more
}

// Answers the lines that end in the block from the place `from` on, where the first `count` bytes of the list are held of the first of them, until the block ends or
// there is no room for the longest reply.
pub fn refit_block(
    block: &[u8],
    from: usize,
    line: &mut [u8],
    count: usize,
    out: &mut [u8],
) -> Refitted
    requires { (most_digits < length line.old) × (count ≤ length line.old) }
    ensures { Refits block.now from line.old count out.old result line.new out.new }
{
    let mut at = from;
    let mut held = count;
    let mut size: usize = 0;
    // a while: the step depends on where the line ends
    while at < block.len() {
        if out.len() - size < MOST_REPLY {
            return Refitted {
                at: at,
                count: held,
                size: size,
            };
        }
        let taken = take_line(block, at, line, held);
        at = taken.at;
        held = taken.count;
        if taken.ended {
            size = append_reply(&line[..held], true, out, size);
            held = 0;
            continue;
        }
    }
    Refitted {
        at: at,
        count: held,
        size: size,
    }
}

// Answers the line that the log ends in without a line feed, if it is not empty, and hands back how many bytes the reply has.
pub fn refit_rest(line: &[u8], count: usize, out: &mut [u8]) -> usize
    requires { (count ≤ length line.now) × (most_reply ≤ length out.old) }
    ensures { Rests line.now count result out.new }
{
    if count == 0 {
        return 0;
    }
    append_reply(&line[..count], false, out, 0)
}
