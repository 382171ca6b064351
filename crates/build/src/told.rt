// What joining is told.
ghost use Rattle.std.specs.Prelude.{◌≡◌, true};
ghost use Rattle.build.specs.Building.{is_cjk, numbers_hold, rules_of};

use super::numbers::{Thresholds, near_of};
use axis::kinds::{Dimension, Direction, Group};
use build_join::rules::Rules;

// Whether CJK's rules apply.
pub fn is_cjk(group: Group) -> bool
    ensures { result ≡ is_cjk group }
{
    match group {
        Group::Default => false,
        Group::Cjk => true,
    }
}

// What joining is told.
pub fn rules_of(
    dim: Dimension,
    major_dir: Direction,
    cjk: bool,
    scale: i32,
    thresholds: Thresholds,
) -> Rules
    requires { numbers_hold scale thresholds ≡ true }
    ensures { result ≡ rules_of dim major_dir cjk scale thresholds }
{
    let near = near_of(thresholds.distance, scale, cjk);
    let length = thresholds.length;
    let width = thresholds.width;
    Rules {
        dim,
        major_dir,
        cjk,
        scale,
        near,
        length,
        width,
    }
}
