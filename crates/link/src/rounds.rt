// The three rounds. Each keeps its table in a local, and changes it in place.
ghost use Rattle.std.specs.Prelude.{◌≡◌, ◌≤◌, pos, ◌≤ℤ◌};
ghost use Rattle.axis.specs.Accepted.{SegmentsWithin};
ghost use Rattle.axis.specs.Limits.{most_segments};
ghost use Rattle.link.specs.Rounds.{pair_round, rewrite_all, serif_round, last_round};

use super::gap::gap_between;
use super::serif::{encloses, is_much_longer, is_near_stem, rewritten, settled, unlinked};
use super::stem::{can_be_stem, improved};
use super::thresholds::Thresholds;
use axis::kinds::Direction;
use axis::segment::Segments;

// The pair round: each segment in the major direction against each other one. Both are read anew at each turn.
pub fn pair_round(segments: Segments, major_dir: Direction, thresholds: Thresholds) -> Segments
    requires segments_within { SegmentsWithin segments }
    requires pos_bound { pos 0 ≤ℤ thresholds.len }
    ensures value { result ≡ pair_round major_dir thresholds segments }
    ensures segments_within_2 { SegmentsWithin result }
{
    let count = segments.len;
    let mut table = segments;
    for ix1 in 0..count {
        let before = table.segments[ix1];
        let dir = before.dir;
        if dir != major_dir {
            continue;
        }
        for ix2 in 0..count {
            let seg1 = table.segments[ix1];
            let seg2 = table.segments[ix2];
            let gap = gap_between(before, seg1, seg2);
            if !can_be_stem(thresholds, seg1, seg2, ix1, ix2, gap) {
                continue;
            }
            table.segments[ix1] = improved(seg1, gap, ix2 as u16);
            table.segments[ix2] = improved(seg2, gap, ix1 as u16);
        }
    }
    table
}

// Every link to ix2 or to link2_ix, rewritten: a sweep that each segment causes at most once.
fn rewrite_links(segments: Segments, ix2: u16, link1_ix: u16, link2_ix: u16, ix1: u16) -> Segments
    requires { segments.len ≤ most_segments }
    ensures { result ≡ rewrite_all ix2 link1_ix link2_ix ix1 segments }
{
    let count = segments.len;
    let mut table = segments;
    for i in 0..count {
        let seg = table.segments[i];
        table.segments[i] = rewritten(seg, ix2, link1_ix, link2_ix, ix1);
    }
    table
}

// The serif round: near stems against those that enclose them. seg1 and link1 are copies from before the inner loop.
pub fn serif_round(segments: Segments, thresholds: Thresholds) -> Segments
    requires { SegmentsWithin segments }
    ensures { result ≡ serif_round thresholds segments }
{
    let count = segments.len;
    let mut table = segments;
    for ix1 in 0..count {
        let seg1 = table.segments[ix1];
        let first = seg1.link;
        let Some(link1_ix) = first else {
            continue;
        };
        let at1 = link1_ix as usize;
        let link1 = table.segments[at1];
        if !is_near_stem(thresholds, seg1, link1, ix1 as u16) {
            continue;
        }
        for ix2 in 0..count {
            let seg2 = table.segments[ix2];
            let second = seg2.link;
            let Some(link2_ix) = second else {
                continue;
            };
            let at2 = link2_ix as usize;
            let link2 = table.segments[at2];
            if !encloses(seg1, link1, seg2, link2, ix1 as u16, ix2 as u16) {
                continue;
            }
            if is_much_longer(seg1, seg2) {
                table = rewrite_links(table, ix2 as u16, link1_ix, link2_ix, ix1 as u16);
                continue;
            }
            let own = table.segments[ix1];
            table.segments[ix1] = unlinked(own);
            let other = table.segments[at1];
            table.segments[at1] = unlinked(other);
            break;
        }
    }
    table
}

// The last round: links that are not returned go, and leave serifs or nothing.
pub fn last_round(segments: Segments, thresholds: Thresholds) -> Segments
    requires { SegmentsWithin segments }
    ensures { result ≡ last_round thresholds segments }
{
    let count = segments.len;
    let mut table = segments;
    for ix1 in 0..count {
        let seg1 = table.segments[ix1];
        let link = seg1.link;
        let Some(ix2) = link else {
            continue;
        };
        let at2 = ix2 as usize;
        let seg2 = table.segments[at2];
        table.segments[ix1] = settled(thresholds, seg1, seg2, ix1 as u16);
    }
    table
}
