// The contour of a point.
ghost use Rattle.std.specs.Prelude.{◌≡◌, ◌&&◌, leb, ltb};
ghost use Rattle.weak.specs.Weak.{contour_of};
ghost use Rattle.edge_points.specs.Steps.{stretch_of};

// The points of a contour: those from `start` on that are in front of `end`.
#[derive(Clone, Copy)]
pub struct Stretch {
    pub start: usize,
    pub end: usize,
}

// The contour of the point p; where it is on none, one without points.
pub fn contour_of(ends: &[u16], p: usize) -> Stretch
    ensures { result ≡ stretch_of (contour_of 0 ends.now p) }
{
    let mut start: usize = 0;
    for end in ends {
        let last = usize::from(*end);
        if p <= last {
            return Stretch {
                start,
                end: last + 1,
            };
        }
        start = last + 1;
    }
    Stretch { start: 0, end: 0 }
}

// Whether the point p is on a contour.
pub fn is_on(contour: Stretch, p: usize) -> bool
    ensures { result ≡ (leb contour.start p && ltb p contour.end) }
{
    if p < contour.start {
        return false;
    }
    p < contour.end
}
