// Runs the jobs of a log again: reads its lines from standard input, and writes a reply to each to standard output.
#![tactic(auto)]

ghost use Rattle.std.specs.Prelude.{◌≤◌, ◌<◌, IfOk, length};
ghost use Rattle.log_frame.specs.Limits.{most_digits};
ghost use Rattle.log_reply.specs.Reply.{most_reply};

use log_blocks::blocks::{MOST_HELD, refit_block, refit_rest};
use std::io;
use std::io::{Read, Write};

// The bytes of a block.
const BLOCK: usize = 65536;

// Writes replies.
fn put<W: Write>(to: &mut W, replies: &[u8]) -> io::Result<()> {
    to.write_all(replies)
}

// Answers the lines that end in a block, up to the first reply that cannot be written.
fn answer_block<W: Write>(
    to: &mut W,
    block: &[u8],
    line: &mut [u8],
    begun: usize,
    out: &mut [u8],
) -> io::Result<usize>
    requires most_digits_in_bounds { (most_digits < length line.old) × (begun ≤ length line.old) }
    requires most_reply_in_bounds { most_reply ≤ length out.old }
    ensures { IfOk result (λ n. n ≤ length line.new) }
{
    let mut at: usize = 0;
    let mut count = begun;
    // a while: the step depends on how much of the block was answered
    while at < block.len() {
        let done = refit_block(block, at, line, count, out);
        put(to, &out[..done.size])?;
        at = done.at;
        count = done.count;
    }
    Ok(count)
}

// Answers what the log ends in without a line feed.
fn answer_rest<W: Write>(to: &mut W, line: &[u8], count: usize, out: &mut [u8]) -> io::Result<()>
    requires { (count ≤ length line.now) × (most_reply ≤ length out.old) }
{
    let size = refit_rest(line, count, out);
    put(to, &out[..size])
}

// Reads a log, and writes a reply to each of its lines.
fn refit<R: Read, W: Write>(from: &mut R, to: &mut W) -> io::Result<()> {
    let mut block = [0u8; BLOCK];
    let mut line = [0u8; MOST_HELD];
    let mut out = [0u8; BLOCK];
    let mut count: usize = 0;
    for _ in 0..u64::MAX {
        let n = from.read(&mut block)?;
        if n == 0 {
            break;
        }
        count = answer_block(to, &block[..n], &mut line, count, &mut out)?;
    }
    answer_rest(to, &line, count, &mut out)
}

fn main(rt: HostRuntime) -> io::Result<()> {
    refit(&mut rt.reader(), &mut io::writer(&rt))
}
