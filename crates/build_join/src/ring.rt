// Rings while they are built: `next` has for each segment of an edge the one behind it, and for the last the first.
ghost use Rattle.std.specs.Prelude.{◌≡◌, true, ◌||◌, ◌<◌};
ghost use Rattle.std.specs.Int.Signed.{le_z};
ghost use Rattle.axis.specs.Accepted.{SegmentsWithin};
ghost use Rattle.axis.specs.Limits.{most_segments};
ghost use Rattle.axis.specs.Ring.{walk, ends};
ghost use Rattle.build_join.specs.Joining.{appended};
ghost use Rattle.build_join.specs.Walks.{next_in, no_stem, stem_near, stems_agree, StemsOf};

use super::rules::distance;
use axis::limits::MOST_SEGMENTS;
use axis::segment::Segments;

// Stands in the place of a link's position where there is no link: positions are below it.
pub const NO_STEM: i32 = 65536;

// Segment i behind the last of the ring from first to last.
pub fn append(next: &mut [u16; MOST_SEGMENTS], first: u16, last: u16, i: u16)
    requires { (i < most_segments) × (last < most_segments) }
    ensures { next.new ≡ appended next.old first last i }
{
    let at = i as usize;
    let end = last as usize;
    next[at] = first;
    next[end] = i;
}

// The position of each segment's link, for CJK; Latin asks for none.
pub fn stems_of(segments: Segments, cjk: bool) -> [i32; MOST_SEGMENTS]
    requires { SegmentsWithin segments }
    ensures { StemsOf segments cjk result }
{
    let count = segments.len;
    let mut stems = [NO_STEM; MOST_SEGMENTS];
    if !cjk {
        return stems;
    }
    for i in 0..count {
        let segment = segments.segments[i];
        let link = segment.link;
        let Some(ix) = link else {
            continue;
        };
        let at = ix as usize;
        let other = segments.segments[at];
        stems[i] = other.pos as i32;
    }
    stems
}

// Whether a link, where there is one, is nearer than a limit to a stem.
pub fn stem_near(stem: i32, other: i32, near: u64) -> bool
    ensures { result ≡ stem_near near stem other }
{
    if NO_STEM <= other {
        return true;
    }
    distance(stem, other) < near
}

// Whether every linked segment of a ring has its link near a stem, where there is one: then all of them can make a single edge.
pub fn ring_agrees(
    next: &[u16; MOST_SEGMENTS],
    stems: &[i32; MOST_SEGMENTS],
    first: u16,
    last: u16,
    stem: i32,
    near: u64,
) -> bool
    requires { (first < most_segments) × (ends (next_in next.now) most_segments last most_segments first ≡ true) }
    ensures { result ≡ (le_z no_stem stem || stems_agree stems.now near stem (walk (next_in next.now) last most_segments first)) }
{
    if NO_STEM <= stem {
        return true;
    }
    let mut ix = first;
    // a loop: the next segment is read from the ring
    loop {
        let at = ix as usize;
        if !stem_near(stem, stems[at], near) {
            return false;
        }
        if ix == last {
            return true;
        }
        ix = next[at];
    }
}
