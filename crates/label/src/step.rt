// A step of the chain, by the call that its job names.
ghost use Rattle.std.specs.Prelude.{◌≤◌};
ghost use Rattle.tool_lines.specs.Limits.{most_words};

use label_fit::edges::{fitting, m, remaining};
use label_fit::glyph::Glyph;
use label_fit::topo::{build, link};
use label_points::path_steps::path;
use label_points::points::{strong, weak};
use label_print::print::text;
use tool_lines::limits::MOST_WORDS;
use words::word::word_at;

// The glyph after a step that fits its edges or its points, or that hands out its path.
fn fit(words: &[i32], glyph: Glyph) -> Glyph {
    match word_at(words, 0) {
        3 => weak(words, glyph),
        15 => path(words, glyph),
        113 => m(words, glyph),
        122 => fitting(words, glyph),
        130 => remaining(words, glyph),
        131 => strong(words, glyph),
        _ => {
            text(b"  a line that is no step of the chain is left out\n");
            glyph
        }
    }
}

// The glyph behind the end of a line of n words: a new one where there are none, else the glyph after the step that they ask for. Nothing more is done once a step was refused.
pub fn step(words: [i32; MOST_WORDS], n: usize, glyph: Glyph) -> Glyph
    requires { n ≤ most_words }
{
    if n == 0 {
        text(b"\n");
        return Glyph::new();
    }
    if glyph.refused {
        return glyph;
    }
    match words[0] {
        4 => link(words, glyph),
        105 => build(words, glyph),
        _ => fit(&words[0..n], glyph),
    }
}
