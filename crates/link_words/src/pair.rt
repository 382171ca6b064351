// The pair round. What the inner loop does not change of its first segment, and the direction that the other must have, are read once.
ghost use Rattle.std.specs.Prelude.{◌≡◌, ◌<◌, pos, ◌≤ℤ◌};
ghost use Rattle.signed.specs.Range.{Between};
ghost use Rattle.axis.specs.Limits.{most_score};
ghost use Rattle.axis.specs.Segment.{segment_at};
ghost use Rattle.link.specs.Loops.{turns};
ghost use Rattle.link.specs.Rounds.{pair_turn, major_turn, pair_round};
ghost use Rattle.words.specs.Segment.{segments_in, flat_segments};
ghost use Rattle.words_segment.specs.Whole.{Whole, Became};
ghost use Rattle.link_words.specs.Linking.{Linkable, Made, Alike, other_word, improving};

use axis::kinds::Direction;
use axis::segment::Segment;
use link::gap::{Gap, gap_between};
use link::stem::{check_seg, is_stem_gap};
use link::thresholds::Thresholds;
use words::field::direction_word;
use words::segment::SEGMENT_WORDS;
use words_segment::segment::{is_directed, put_stem, read_segment};

// Links a segment to another one by a stem of this gap, where that is better.
fn improve_in(words: &mut [i32], i: usize, gap: Gap, ix: u16)
    requires whole { Whole words.old × (i < segments_in words.old) }
    requires between { Between 0 most_score (segment_at (flat_segments words.old) i).score × Between 0 most_score gap.dist }
    ensures { Became (improving i gap ix) words.old words.new }
{
    let seg = read_segment(words, i);
    if !check_seg(seg, gap) {
        return;
    }
    put_stem(words, i, gap.dist, gap.len, ix);
}

// One pair; `before` is the first segment as it was before the inner loop, and `other` the word of the direction opposite to its own.
fn pair_in(
    words: &mut [i32],
    thresholds: Thresholds,
    before: Segment,
    other: i32,
    ix1: usize,
    ix2: usize,
)
    requires linkable { Linkable words.old × (ix1 < segments_in words.old) × (ix2 < segments_in words.old) }
    requires pos_bound { (pos 0 ≤ℤ thresholds.len) × Alike before (segment_at (flat_segments words.old) ix1) × (other ≡ other_word before.dir) }
    ensures { Made (pair_turn thresholds before ix1 ix2) words.old words.new }
{
    if !is_directed(words, ix2, other) {
        return;
    }
    let seg2 = read_segment(words, ix2);
    let gap = gap_between(before, before, seg2);
    if !is_stem_gap(thresholds, gap) {
        return;
    }
    improve_in(words, ix1, gap, ix2 as u16);
    improve_in(words, ix2, gap, ix1 as u16);
}

// The word of the direction opposite to another one, and no direction's where none is.
fn other_word(dir: Direction) -> i32
    ensures { result ≡ other_word dir }
{
    match dir {
        Direction::None => -1,
        Direction::Right => direction_word(Direction::Left),
        Direction::Left => direction_word(Direction::Right),
        Direction::Up => direction_word(Direction::Down),
        Direction::Down => direction_word(Direction::Up),
    }
}

// One segment against each other one.
fn pairs_in(
    words: &mut [i32],
    major_dir: Direction,
    thresholds: Thresholds,
    before: Segment,
    ix1: usize,
)
    requires linkable { Linkable words.old × (ix1 < segments_in words.old) }
    requires pos_bound { (pos 0 ≤ℤ thresholds.len) × Alike before (segment_at (flat_segments words.old) ix1) × (before.dir ≡ major_dir) }
    ensures { Made (turns (pair_turn thresholds before ix1) (segments_in words.old)) words.old words.new }
{
    let other = other_word(major_dir);
    let count = words.len() / SEGMENT_WORDS;
    for ix2 in 0..count {
        pair_in(words, thresholds, before, other, ix1, ix2);
    }
}

// One segment against each other one, where it has the major direction.
fn major_in(words: &mut [i32], major_dir: Direction, thresholds: Thresholds, ix1: usize)
    requires { Linkable words.old × (ix1 < segments_in words.old) × (pos 0 ≤ℤ thresholds.len) }
    ensures { Made (major_turn major_dir thresholds (segments_in words.old) ix1) words.old words.new }
{
    if !is_directed(words, ix1, direction_word(major_dir)) {
        return;
    }
    let before = read_segment(words, ix1);
    pairs_in(words, major_dir, thresholds, before, ix1);
}

// Each segment in the major direction against each other one.
pub fn pair_round_in(words: &mut [i32], major_dir: Direction, thresholds: Thresholds)
    requires { Linkable words.old × (pos 0 ≤ℤ thresholds.len) }
    ensures { Made (pair_round major_dir thresholds) words.old words.new }
{
    let count = words.len() / SEGMENT_WORDS;
    for ix1 in 0..count {
        major_in(words, major_dir, thresholds, ix1);
    }
}
