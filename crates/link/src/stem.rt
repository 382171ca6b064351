// What the pair round asks of two segments, and what becomes of them.
ghost use Rattle.std.specs.Prelude.{◌≡◌, pos, ◌*ℤ◌};
ghost use Rattle.std.specs.Int.Signed.{lt_z};
ghost use Rattle.signed.specs.Range.{Between};
ghost use Rattle.axis.specs.Limits.{most_score};
ghost use Rattle.link.specs.Pairs.{stem_gap, facing, check_seg, linked_by, improved_by};

use super::gap::{Gap, times};
use super::thresholds::Thresholds;
use axis::direction::opposite;
use axis::segment::Segment;

// Whether a gap can be that of a stem: the second segment not before the first, with enough overlap.
pub fn is_stem_gap(thresholds: Thresholds, gap: Gap) -> bool
    ensures { result ≡ stem_gap thresholds gap }
{
    if gap.dist < 0 {
        return false;
    }
    thresholds.len <= gap.len
}

// Whether segments ix1 and ix2 can be a stem: different ones, in opposite directions, the second not before the first, with enough overlap.
pub fn can_be_stem(
    thresholds: Thresholds,
    seg1: Segment,
    seg2: Segment,
    ix1: usize,
    ix2: usize,
    gap: Gap,
) -> bool
    ensures { result ≡ facing thresholds seg1 seg2 ix1 ix2 gap }
{
    if ix1 == ix2 {
        return false;
    }
    let dir1 = seg1.dir;
    let dir2 = seg2.dir;
    if !opposite(dir1, dir2) {
        return false;
    }
    is_stem_gap(thresholds, gap)
}

// Whether dist times 8 is below score times k.
fn is_below(dist: i32, score: i32, k: i32) -> bool
    requires between { Between 0 most_score dist }
    requires between_2 { Between 0 most_score score }
    requires between_3 { Between 0 9 k }
    ensures { result ≡ lt_z (dist *ℤ pos 8) (score *ℤ k) }
{
    times(dist, 8) < times(score, k)
}

// Whether a stem of this gap is better than the one that the segment has.
pub fn check_seg(seg: Segment, gap: Gap) -> bool
    requires between { Between 0 most_score seg.score }
    requires between_2 { Between 0 most_score gap.dist }
    ensures { result ≡ check_seg seg gap }
{
    if !is_below(gap.dist, seg.score, 9) {
        return false;
    }
    if is_below(gap.dist, seg.score, 7) {
        return true;
    }
    seg.len < gap.len
}

// The segment linked to ix by a stem of this gap.
fn joined(seg: Segment, gap: Gap, ix: u16) -> Segment
    ensures { result ≡ linked_by seg gap ix }
{
    Segment {
        score: gap.dist,
        len: gap.len,
        link: Some(ix),
        ..seg
    }
}

// The segment linked to ix, where that is better.
pub fn improved(seg: Segment, gap: Gap, ix: u16) -> Segment
    requires between { Between 0 most_score seg.score }
    requires between_2 { Between 0 most_score gap.dist }
    ensures { result ≡ improved_by seg gap ix }
{
    if check_seg(seg, gap) {
        return joined(seg, gap, ix);
    }
    seg
}
