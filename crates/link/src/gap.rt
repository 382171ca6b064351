// Two segments measured against each other.
ghost use Rattle.std.specs.Prelude.{◌≡◌, ◌*ℤ◌};
ghost use Rattle.signed.specs.Range.{Between};
ghost use Rattle.axis.specs.Limits.{most_score};
ghost use Rattle.link.specs.Pairs.{max_z, min_z, gap_of};
ghost use Rattle.link.specs.Steps.{Reach};

use axis::segment::Segment;

// How far one segment is behind another, and how much they overlap.
#[derive(Clone, Copy)]
pub struct Gap {
    pub dist: i32,
    pub len: i32,
}

// The larger of two coordinates.
fn larger(a: i16, b: i16) -> i16
    ensures { result ≡ max_z a b }
{
    if a < b {
        return b;
    }
    a
}

// The smaller of two coordinates.
fn smaller(a: i16, b: i16) -> i16
    ensures { result ≡ min_z a b }
{
    if a < b {
        return a;
    }
    b
}

// The distance of seg2 from where the first segment was before the inner loop, and the overlap of seg1 and seg2. The choice of min and max is intentional.
pub fn gap_between(before: Segment, seg1: Segment, seg2: Segment) -> Gap
    ensures value { result ≡ gap_of before seg1 seg2 }
    ensures reach { Reach result }
{
    let min = larger(seg1.min_coord, seg2.min_coord);
    let max = smaller(seg1.max_coord, seg2.max_coord);
    Gap {
        dist: (seg2.pos as i32) - (before.pos as i32),
        len: (max as i32) - (min as i32),
    }
}

// A score, a len or a distance times a small number.
pub fn times(x: i32, k: i32) -> i32
    requires between { Between 0 most_score x }
    requires between_2 { Between 0 9 k }
    ensures { result ≡ x *ℤ k }
{
    x * k
}
