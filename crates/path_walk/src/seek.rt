// The steps of all contours.
ghost use Rattle.std.specs.Prelude.{◌≡◌, true, length};
ghost use Rattle.weak.specs.Weak.{ends_hold};
ghost use Rattle.path_trip.specs.Path.{points, path};
ghost use Rattle.path_trip.specs.Trips.{Admitted};
ghost use Rattle.path_walk.specs.Steps.{seek};

use super::walk::contour_step;
use path_trip::step::PathStep;

// Step k of the path, or how far k is behind its end.
pub fn path_at(
    xs: &[i32],
    ys: &[i32],
    marks: &[u8],
    ends: &[u16],
    k: usize,
) -> Result<PathStep, usize>
    requires admitted { Admitted (points xs.now ys.now marks.now) }
    requires ends_value { ends_hold 0 (length xs.now) ends.now ≡ true }
    ensures { result ≡ seek (path (points xs.now ys.now marks.now) ends.now) k }
{
    let mut left = k;
    let mut a: usize = 0;
    for end in ends {
        let e = usize::from(*end) + 1;
        let sought = contour_step(xs, ys, marks, a, e, left);
        let Err(rest) = sought else {
            return sought;
        };
        left = rest;
        a = e;
    }
    Err(left)
}
