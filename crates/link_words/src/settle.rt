// The last round: links that are not returned go, and leave serifs or nothing.
ghost use Rattle.std.specs.Prelude.{◌<◌};
ghost use Rattle.link.specs.Rounds.{last_turn, last_round};
ghost use Rattle.words.specs.Segment.{segments_in};
ghost use Rattle.words_segment.specs.Whole.{Became};
ghost use Rattle.link_words.specs.Linking.{Linkable};

use link::serif::stays_serif;
use link::thresholds::Thresholds;
use words::segment::SEGMENT_WORDS;
use words_segment::segment::{put_no_link, put_serif, read_segment};

// One segment.
fn settle_in(words: &mut [i32], thresholds: Thresholds, ix1: usize)
    requires { Linkable words.old × (ix1 < segments_in words.old) }
    ensures { Became (last_turn thresholds ix1) words.old words.new }
{
    let seg1 = read_segment(words, ix1);
    let link = seg1.link;
    let Some(ix2) = link else {
        return;
    };
    let seg2 = read_segment(words, ix2 as usize);
    let back = seg2.link;
    if back == Some(ix1 as u16) {
        return;
    }
    if stays_serif(thresholds, seg1, seg2) {
        put_serif(words, ix1, back);
        return;
    }
    put_no_link(words, ix1);
}

// Every segment.
pub fn last_round_in(words: &mut [i32], thresholds: Thresholds)
    requires { Linkable words.old }
    ensures { Became (last_round thresholds) words.old words.new }
{
    let count = words.len() / SEGMENT_WORDS;
    for ix1 in 0..count {
        settle_in(words, thresholds, ix1);
    }
}
