// The range of a list's coordinates: whether each is within a limit, and whether two are far enough apart for a quotient that is too steep.
ghost use Rattle.std.specs.Prelude.{◌≡◌, pos, nat_abs, ◌-ℤ◌, ◌≤ℤ◌};
ghost use Rattle.std.specs.Int.Signed.{lt_z};
ghost use Rattle.weak.specs.Weak.{coordinate_holds, coordinates_hold};
ghost use Rattle.weak.specs.Steps.{least_far, Reaches};

// How far apart two currents are at the least where a point between them is too steep.
const LEAST_FAR: i64 = 65536;

// The least and the largest coordinate of a list, reckoned from 0 on.
#[derive(Clone, Copy)]
pub struct Reach {
    pub least: i32,
    pub most: i32,
}

// Whether a coordinate is at most `most` either way.
fn coordinate_holds(x: i32, most: i32) -> bool
    requires { pos 0 ≤ℤ most }
    ensures { result ≡ coordinate_holds (nat_abs most) x }
{
    if x < 0 - most {
        return false;
    }
    x <= most
}

// Whether every coordinate of a list is.
pub fn coordinates_hold(list: &[i32], most: i32) -> bool
    requires { pos 0 ≤ℤ most }
    ensures { result ≡ coordinates_hold (nat_abs most) list.now }
{
    let mut all = true;
    for x in list {
        let holds = coordinate_holds(*x, most);
        all = all & holds;
    }
    all
}

// The reach of a list.
pub fn reach_of(list: &[i32]) -> Reach
    ensures { Reaches list.now result.least result.most }
{
    let mut least: i32 = 0;
    let mut most: i32 = 0;
    for x in list {
        least = least.min(*x);
        most = most.max(*x);
    }
    Reach { least, most }
}

// Whether no two coordinates of a reach are far apart.
pub fn is_calm(reach: Reach) -> bool
    ensures { result ≡ lt_z (reach.most -ℤ reach.least) (pos least_far) }
{
    (reach.most as i64) - (reach.least as i64) < LEAST_FAR
}
