// Which groups have blue zones, and on which axes.
ghost use Rattle.std.specs.Prelude.{◌≡◌};
ghost use Rattle.zones.specs.Call.{is_vertical, has_blues};

use axis::kinds::{Dimension, Group};

// Whether an axis is vertical.
fn is_vertical(dim: Dimension) -> bool
    ensures { result ≡ is_vertical dim }
{
    match dim {
        Dimension::Horizontal => false,
        Dimension::Vertical => true,
    }
}

// Whether a group has blue zones on an axis: the default group has them on vertical ones only.
pub fn has_blues(group: Group, dim: Dimension) -> bool
    ensures { result ≡ has_blues group dim }
{
    match group {
        Group::Default => is_vertical(dim),
        Group::Cjk => true,
    }
}
