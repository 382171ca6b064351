// What is asked of one segment, of a segment and an edge, and of two edges.
ghost use Rattle.std.specs.Prelude.{◌≡◌, pos, ◌*ℤ◌};
ghost use Rattle.std.specs.Int.{w32};
ghost use Rattle.std.proofs.Common.{SFits};
ghost use Rattle.std.specs.Int.Signed.{lt_z};
ghost use Rattle.fixed.specs.Point.{mul_fix};
ghost use Rattle.signed.specs.Distance.{distance as distance_of};
ghost use Rattle.signed.specs.Range.{Between};
ghost use Rattle.axis.specs.Edge.{with_last};
ghost use Rattle.axis.specs.Limits.{most_score};
ghost use Rattle.build_join.specs.Joining.{passed_over, fits_in, stops_behind, new_edge, skips as skipped, limit_behind};

use axis::edge::{EMPTY_EDGE, Edge};
use axis::kinds::{Dimension, Direction};
use axis::segment::Segment;
use fixed::point::{fixed_mul, magnitude};

// What building is told beside the segments. `near` is the distance below which a segment joins an edge, `length` and `width` are Latin's thresholds.
#[derive(Clone, Copy)]
pub struct Rules {
    pub dim: Dimension,
    pub major_dir: Direction,
    pub cjk: bool,
    pub scale: i32,
    pub near: u64,
    pub length: i32,
    pub width: i32,
}

// How far two positions are apart.
pub fn distance(a: i32, b: i32) -> u64
    ensures { result ≡ distance_of a b }
{
    magnitude((a as i64) - (b as i64))
}

// How far a segment is from an edge.
pub fn distance_to(segment: Segment, edge: Edge) -> u64
    ensures { result ≡ distance_of segment.pos edge.fpos }
{
    distance(segment.pos as i32, edge.fpos as i32)
}

// Whether a serif is shorter than one and a half times the length threshold.
fn is_short_serif(height: i32, length: i32) -> bool
    requires between { Between 32768 32767 height }
    requires between_2 { Between 0 most_score length }
    ensures { result ≡ lt_z (height *ℤ pos 2) (length *ℤ pos 3) }
{
    height * 2 < length * 3
}

// Whether Latin's first loop passes a segment over: too short, too wide, without direction, or a serif shorter than 1.5 times the threshold.
pub fn is_passed_over(segment: Segment, rules: Rules) -> bool
    requires { Between 0 most_score rules.length }
    ensures { result ≡ passed_over rules segment }
{
    let height = segment.height as i32;
    if height < rules.length {
        return true;
    }
    if rules.width < segment.delta as i32 {
        return true;
    }
    let dir = segment.dir;
    if dir == Direction::None {
        return true;
    }
    let serif = segment.serif;
    if serif.is_none() {
        return false;
    }
    is_short_serif(height, rules.length)
}

// Whether a segment goes with an edge: nearer than the limit, and in its direction, for which the second loop does not ask.
pub fn fits(segment: Segment, edge: Edge, limit: u64, second: bool) -> bool
    ensures { result ≡ fits_in second limit segment edge }
{
    if limit <= distance_to(segment, edge) {
        return false;
    }
    if second {
        return true;
    }
    let own = segment.dir;
    let other = edge.dir;
    other == own
}

// Whether an edge that is added stops behind another: where that is before it, or equal while the new one has the major direction.
pub fn stops_behind(prev: Edge, edge: Edge, rules: Rules) -> bool
    ensures { result ≡ stops_behind rules edge prev }
{
    if prev.fpos < edge.fpos {
        return true;
    }
    if edge.fpos < prev.fpos {
        return false;
    }
    let dir = edge.dir;
    let major_dir = rules.major_dir;
    dir == major_dir
}

// The edge of segment i alone.
pub fn new_edge(segment: Segment, scale: i32, i: u16) -> Edge
    requires { SFits w32 (mul_fix segment.pos scale) }
    ensures { result ≡ new_edge segment scale i }
{
    let opos = fixed_mul(segment.pos as i32, scale);
    let fpos = segment.pos;
    let dir = segment.dir;
    Edge {
        fpos,
        opos,
        pos: opos,
        dir,
        first: i,
        last: i,
        ..EMPTY_EDGE
    }
}

// The edge with another last segment.
pub fn with_last(edge: Edge, i: u16) -> Edge
    ensures { result ≡ with_last edge i }
{
    Edge { last: i, ..edge }
}

// Whether a loop leaves a segment out: the first one those that Latin passes over, the second one all with a direction.
pub fn skips(segment: Segment, rules: Rules, second: bool) -> bool
    requires { Between 0 most_score rules.length }
    ensures { result ≡ skipped rules second segment }
{
    if second {
        let dir = segment.dir;
        return dir != Direction::None;
    }
    if rules.cjk {
        return false;
    }
    is_passed_over(segment, rules)
}

// What an edge must be nearer than to be taken in the place of this one: CJK takes the nearest, Latin stays with the first.
pub fn limit_behind(segment: Segment, edge: Edge, cjk: bool) -> u64
    ensures { result ≡ limit_behind cjk (distance_of segment.pos edge.fpos) }
{
    if cjk {
        return distance_to(segment, edge);
    }
    0
}
