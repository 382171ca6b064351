// What the serif round and the last round ask of segments, and what becomes of them.
ghost use Rattle.std.specs.Prelude.{◌≡◌, not, ◌&&◌, eqb, pos, ◌*ℤ◌};
ghost use Rattle.std.specs.Int.Signed.{lt_z, le_z};
ghost use Rattle.signed.specs.Equality.{eq_z};
ghost use Rattle.signed.specs.Range.{Between};
ghost use Rattle.axis.specs.Limits.{most_score};
ghost use Rattle.axis.specs.Link.{links_to};
ghost use Rattle.link.specs.Pairs.{serif_of, unlinked as unlinked_as, near_stem, encloses as encloses_of, much_longer, rewritten as rewritten_as, stays_serif, settled as settled_as};

use super::gap::times;
use super::thresholds::Thresholds;
use axis::segment::Segment;

// The segment without a link, a serif of what `serif` names.
fn as_serif(seg: Segment, serif: Option<u16>) -> Segment
    ensures { result ≡ serif_of seg serif }
{
    Segment {
        link: None,
        serif,
        ..seg
    }
}

// The segment without a link.
pub fn unlinked(seg: Segment) -> Segment
    ensures { result ≡ unlinked_as seg }
{
    let serif = seg.serif;
    as_serif(seg, serif)
}

// Whether segment ix1 and its link are a near stem: linked to each other, the link behind the segment.
pub fn is_near_stem(thresholds: Thresholds, seg1: Segment, link1: Segment, ix1: u16) -> bool
    ensures { result ≡ near_stem thresholds seg1 link1 ix1 }
{
    if thresholds.dist <= seg1.score {
        return false;
    }
    let back = link1.link;
    if back != Some(ix1) {
        return false;
    }
    seg1.pos < link1.pos
}

// Whether segment ix2 is another one than segment ix1, and not behind it.
pub fn starts_outside(seg1: Segment, seg2: Segment, ix1: u16, ix2: u16) -> bool
    ensures { result ≡ le_z seg2.pos seg1.pos && not (eqb ix1 ix2) }
{
    if seg1.pos < seg2.pos {
        return false;
    }
    ix1 != ix2
}

// Whether link2 is linked to segment ix2, and not before link1.
fn ends_outside(link1: Segment, link2: Segment, ix2: u16) -> bool
    ensures { result ≡ links_to link2.link ix2 && le_z link1.pos link2.pos }
{
    let back = link2.link;
    if back != Some(ix2) {
        return false;
    }
    link1.pos <= link2.pos
}

// Whether two stems have the same two positions.
fn coincide(seg1: Segment, link1: Segment, seg2: Segment, link2: Segment) -> bool
    ensures { result ≡ eq_z seg1.pos seg2.pos && eq_z link1.pos link2.pos }
{
    if seg1.pos != seg2.pos {
        return false;
    }
    link1.pos == link2.pos
}

// Whether seg2's score is above seg1's, and below four times that.
fn little_worse(seg1: Segment, seg2: Segment) -> bool
    requires { Between 0 most_score seg1.score }
    ensures { result ≡ lt_z seg1.score seg2.score && lt_z seg2.score (seg1.score *ℤ pos 4) }
{
    if seg2.score <= seg1.score {
        return false;
    }
    seg2.score < times(seg1.score, 4)
}

// Whether the stem of segment ix2 and link2 encloses that of segment ix1 and link1, does not coincide with it, and is a little worse.
pub fn encloses(
    seg1: Segment,
    link1: Segment,
    seg2: Segment,
    link2: Segment,
    ix1: u16,
    ix2: u16,
) -> bool
    requires { Between 0 most_score seg1.score }
    ensures { result ≡ encloses_of seg1 link1 seg2 link2 ix1 ix2 }
{
    if !starts_outside(seg1, seg2, ix1, ix2) {
        return false;
    }
    if !ends_outside(link1, link2, ix2) {
        return false;
    }
    if coincide(seg1, link1, seg2, link2) {
        return false;
    }
    little_worse(seg1, seg2)
}

// Whether seg1 is at least three times as long as seg2.
pub fn is_much_longer(seg1: Segment, seg2: Segment) -> bool
    requires { Between 0 most_score seg2.len }
    ensures { result ≡ much_longer seg1 seg2 }
{
    times(seg2.len, 3) <= seg1.len
}

// What was linked to ix2 becomes a serif of link1_ix; what was linked to link2_ix, a serif of ix1.
pub fn rewritten(seg: Segment, ix2: u16, link1_ix: u16, link2_ix: u16, ix1: u16) -> Segment
    ensures { result ≡ rewritten_as seg ix2 link1_ix link2_ix ix1 }
{
    let link = seg.link;
    if link == Some(ix2) {
        return as_serif(seg, Some(link1_ix));
    }
    if link == Some(link2_ix) {
        return as_serif(seg, Some(ix1));
    }
    seg
}

// Whether seg1, whose link to seg2 is lost, is a serif of what seg2 is linked to.
pub fn stays_serif(thresholds: Thresholds, seg1: Segment, seg2: Segment) -> bool
    requires { Between 0 most_score seg2.score }
    ensures { result ≡ stays_serif thresholds seg1 seg2 }
{
    if seg2.score < thresholds.dist {
        return true;
    }
    seg1.score < times(seg2.score, 4)
}

// Segment ix1, linked to seg2, after the last round.
pub fn settled(thresholds: Thresholds, seg1: Segment, seg2: Segment, ix1: u16) -> Segment
    requires { Between 0 most_score seg2.score }
    ensures { result ≡ settled_as thresholds seg1 seg2 ix1 }
{
    let back = seg2.link;
    if back == Some(ix1) {
        return seg1;
    }
    if stays_serif(thresholds, seg1, seg2) {
        return as_serif(seg1, back);
    }
    unlinked(seg1)
}
