// Fits the sample label: reads its glyphs from standard input, each a title line and the job lines of its chain, and writes what each step changed, and the path in the end.
#![tactic(auto)]

mod step;

ghost use Rattle.std.specs.Prelude.{◌≤◌, length};
ghost use Rattle.tool_lines.specs.Limits.{most_words};

use label_fit::glyph::Glyph;
use label_print::print::text;
use step::step;
use tool_lines::limits::MOST_WORDS;
use tool_lines::line::{Line, feed, words_of};

// The number of standard input.
const STDIN_FILENO: i32 = 0;

// The line with one byte more. A line that is not of words, as a title, is copied from the byte on that is no digit.
fn take(words: &mut [i32], line: Line, byte: u8) -> Line
    requires { most_words ≤ length words.old }
{
    let next = feed(words, line, byte);
    if next.broken {
        let bytes = [byte];
        text(&bytes);
    }
    next
}

fn main() {
    text(
        b"The sample label, fitted. Positions and widths are in pixels and 64ths of a pixel, before and after a step; an edge's line ends with what gave it its position.\nA path is in pixels: M moves, L draws a line, Q a curve by a control point, Z closes.\nOne call tells whether khs_fit_axis alone leaves an axis as the steps above it did: edges, points and what is told of them.\n",
    );
    let mut byte = [0u8; 1];
    let mut words = [0i32; MOST_WORDS];
    let mut line = Line::new();
    let mut glyph = Glyph::new();
    for _ in 0..u64::MAX {
        if io::read_full(STDIN_FILENO, &mut byte) == 0 {
            break;
        }
        let b = byte[0];
        if b != 10 {
            line = take(&mut words, line, b);
            continue;
        }
        glyph = step(words, words_of(line), glyph);
        line = Line::new();
    }
}
