// The serif round. What the inner loop tests the others by, the first segment and its link, is read once.
ghost use Rattle.std.specs.Prelude.{◌<◌};
ghost use Rattle.signed.specs.Range.{Between};
ghost use Rattle.axis.specs.Limits.{most_score};
ghost use Rattle.link.specs.Rounds.{rewrite_turn, rewrite_all, hold, serif_turn, serif_round};
ghost use Rattle.words.specs.Segment.{segments_in};
ghost use Rattle.words_segment.specs.Whole.{Whole, Became};
ghost use Rattle.link_words.specs.Linking.{Linkable, Made, Held};

use axis::segment::Segment;
use link::serif::{encloses, is_much_longer, is_near_stem, starts_outside};
use link::thresholds::Thresholds;
use words::segment::SEGMENT_WORDS;
use words_segment::segment::{put_no_link, put_serif, read_segment};

// One segment, its link rewritten: what was linked to ix2 becomes a serif of link1_ix; what was linked to link2_ix, a serif of ix1.
fn rewrite_in(words: &mut [i32], ix2: u16, link1_ix: u16, link2_ix: u16, ix1: u16, i: usize)
    requires { Whole words.old × (i < segments_in words.old) × (link1_ix < segments_in words.old) × (ix1 < segments_in words.old) }
    ensures { Became (rewrite_turn ix2 link1_ix link2_ix ix1 i) words.old words.new }
{
    let seg = read_segment(words, i);
    let link = seg.link;
    if link == Some(ix2) {
        put_serif(words, i, Some(link1_ix));
        return;
    }
    if link == Some(link2_ix) {
        put_serif(words, i, Some(ix1));
    }
}

// Every link to ix2 or to link2_ix, rewritten: a sweep that each segment causes at most once.
fn rewrite_links_in(words: &mut [i32], ix2: u16, link1_ix: u16, link2_ix: u16, ix1: u16)
    requires { Whole words.old × (link1_ix < segments_in words.old) × (ix1 < segments_in words.old) }
    ensures { Became (rewrite_all ix2 link1_ix link2_ix ix1) words.old words.new }
{
    let count = words.len() / SEGMENT_WORDS;
    for i in 0..count {
        rewrite_in(words, ix2, link1_ix, link2_ix, ix1, i);
    }
}

// One stem held against the first one, of the segments ix1 and link1_ix; whether the first one is given up.
fn hold_in(
    words: &mut [i32],
    seg1: Segment,
    link1: Segment,
    ix1: u16,
    link1_ix: u16,
    ix2: usize,
) -> bool
    requires linkable { Linkable words.old × (ix1 < segments_in words.old) × (link1_ix < segments_in words.old) × (ix2 < segments_in words.old) }
    requires between { Between 0 most_score seg1.score }
    ensures { Held seg1 link1 ix1 link1_ix ix2 result words.old words.new }
{
    let seg2 = read_segment(words, ix2);
    if !starts_outside(seg1, seg2, ix1, ix2 as u16) {
        return false;
    }
    let second = seg2.link;
    let Some(link2_ix) = second else {
        return false;
    };
    let link2 = read_segment(words, link2_ix as usize);
    if !encloses(seg1, link1, seg2, link2, ix1, ix2 as u16) {
        return false;
    }
    if is_much_longer(seg1, seg2) {
        rewrite_links_in(words, ix2 as u16, link1_ix, link2_ix, ix1);
        return false;
    }
    put_no_link(words, ix1 as usize);
    put_no_link(words, link1_ix as usize);
    true
}

// Each stem held against the first one, until that one is given up.
fn holds_in(words: &mut [i32], seg1: Segment, link1: Segment, ix1: u16, link1_ix: u16)
    requires { Linkable words.old × (ix1 < segments_in words.old) × (link1_ix < segments_in words.old) × Between 0 most_score seg1.score }
    ensures { Became (hold seg1 link1 ix1 link1_ix (segments_in words.old)) words.old words.new }
{
    let count = words.len() / SEGMENT_WORDS;
    for ix2 in 0..count {
        if hold_in(words, seg1, link1, ix1, link1_ix, ix2) {
            return;
        }
    }
}

// One segment: where it and its link are a near stem, each other stem is held against it.
fn near_in(words: &mut [i32], thresholds: Thresholds, ix1: usize)
    requires { Linkable words.old × (ix1 < segments_in words.old) }
    ensures { Became (serif_turn thresholds (segments_in words.old) ix1) words.old words.new }
{
    let seg1 = read_segment(words, ix1);
    let first = seg1.link;
    let Some(link1_ix) = first else {
        return;
    };
    let link1 = read_segment(words, link1_ix as usize);
    if !is_near_stem(thresholds, seg1, link1, ix1 as u16) {
        return;
    }
    holds_in(words, seg1, link1, ix1 as u16, link1_ix);
}

// Near stems against those that enclose them.
pub fn serif_round_in(words: &mut [i32], thresholds: Thresholds)
    requires { Linkable words.old }
    ensures { Made (serif_round thresholds) words.old words.new }
{
    let count = words.len() / SEGMENT_WORDS;
    for ix1 in 0..count {
        near_in(words, thresholds, ix1);
    }
}
