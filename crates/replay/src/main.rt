// Answers job lines: reads them from standard input, and writes an answer line for each to standard output, the library's where the calls by value answer the same.
#![tactic(auto)]

mod spell;

ghost use Rattle.std.specs.Prelude.{◌≤◌, length};
ghost use Rattle.tool_lines.specs.Limits.{most_words};
ghost use Rattle.replay.specs.Limits.{most_text};

use jobs::answer::answer_both;
use spell::{MOST_TEXT, spell};
use std::io;
use std::io::{Read, Write};
use tool_lines::limits::MOST_WORDS;
use tool_lines::line::{Line, feed, words_of};
use tool_lists::limits::LONGEST;

// The bytes of a block.
const BLOCK: usize = 65536;

// Writes an answer.
fn put<W: Write>(to: &mut W, answer: &[u8]) -> io::Result<()> {
    to.write_all(answer)
}

// Writes the answer to the words that a line has, by the library and by value.
fn reply<W: Write>(
    to: &mut W,
    words: &[i32],
    line: Line,
    out: &mut [i32],
    text: &mut [u8],
) -> io::Result<()>
    requires { (most_words ≤ length words.now) × (most_text ≤ length text.old) }
{
    let n = words_of(line);
    let count = answer_both(&words[..n], out);
    let size = spell(out, count, text);
    put(to, &text[..size])
}

// Feeds the first n bytes of a block, and answers each line that ends in them, up to the first answer that cannot be written.
fn feed_block<W: Write>(
    to: &mut W,
    block: &[u8],
    n: usize,
    words: &mut [i32],
    begun: Line,
    out: &mut [i32],
    text: &mut [u8],
) -> io::Result<Line>
    requires most_words_in_bounds { (most_words ≤ length words.old) × (most_text ≤ length text.old) }
    requires n_in_bounds { n ≤ length block.now }
{
    let mut line = begun;
    for byte in &block[..n] {
        if *byte != 10 {
            line = feed(words, line, *byte);
            continue;
        }
        reply(to, words, line, out, text)?;
        line = Line::new();
    }
    Ok(line)
}

// Reads job lines, and writes an answer line for each.
fn replay<R: Read, W: Write>(from: &mut R, to: &mut W) -> io::Result<()> {
    let mut block = [0u8; BLOCK];
    let mut words = [0i32; MOST_WORDS];
    let mut out = [0i32; LONGEST];
    let mut text = [0u8; MOST_TEXT];
    let mut line = Line::new();
    for _ in 0..u64::MAX {
        let n = from.read(&mut block)?;
        if n == 0 {
            break;
        }
        line = feed_block(to, &block, n, &mut words, line, &mut out, &mut text)?;
    }
    if line.begun {
        reply(to, &words, line, &mut out, &mut text)?;
    }
    Ok(())
}

fn main(rt: HostRuntime) -> io::Result<()> {
    replay(&mut rt.reader(), &mut io::writer(&rt))
}
