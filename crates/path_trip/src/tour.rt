// Where a contour starts, by index, and the points that it then walks by.
ghost use Rattle.std.specs.Prelude.{◌≡◌, ◌-◌, ◌≤◌, length};
ghost use Rattle.path_trip.specs.Path.{points};
ghost use Rattle.path_trip.specs.Legs.{tour_of};
ghost use Rattle.path_trip.specs.Trips.{Admitted, Within, First, Inside, Walk};

// A place by index: that of a point, or halfway between two points.
#[derive(Clone, Copy)]
pub enum Spot {
    Point(usize),
    Between(usize, usize),
}

// The start of a contour, and the points that it then walks by: `count` of them, from `from` on.
#[derive(Clone, Copy)]
pub struct Tour {
    pub start: Spot,
    pub from: usize,
    pub count: usize,
}

// The first on-curve point from `from` up to `to`, or `to`.
fn first_on(marks: &[u8], from: usize, to: usize) -> usize
    requires { (from ≤ to) × (to ≤ length marks.now) }
    ensures { First marks.now from to result }
{
    for i in from..to {
        if marks[i] != 0 {
            return i;
        }
    }
    to
}

// The start and the walk of the contour from `a` up to `e`.
pub fn tour_of(xs: &[i32], ys: &[i32], marks: &[u8], a: usize, e: usize) -> Tour
    requires admitted { Admitted (points xs.now ys.now marks.now) }
    requires within { Within (points xs.now ys.now marks.now) a e }
    ensures { (result.start ≡ (tour_of (points xs.now ys.now marks.now) a (e - 1)).start) × Inside e result.start
        × Walk (tour_of (points xs.now ys.now marks.now) a (e - 1)).walk a e result.from result.count }
{
    let f = first_on(marks, a, e);
    if f < e {
        return Tour {
            start: Spot::Point(f),
            from: f + 1,
            count: e - a - 1,
        };
    }
    Tour {
        start: Spot::Between(e - 1, a),
        from: a,
        count: e - a,
    }
}
