// Broken rings made anew in rising order.
ghost use Rattle.std.specs.Prelude.{◌≡◌, ◌≤◌, length};
ghost use Rattle.axis.specs.Limits.{most_edges, most_segments};
ghost use Rattle.mend.specs.Rebuilt.{Led};

use super::follow::place;
use axis::limits::{MOST_EDGES, MOST_SEGMENTS};

// From the highest segment down each one of a broken edge gets the one seen last for its next; before the first the lowest stands for it, so that the highest leads there.
pub fn rebuild(
    edges: &[u16; MOST_SEGMENTS],
    n: usize,
    broken: &[bool; MOST_EDGES],
    seen: &mut [u16; MOST_EDGES],
    next: &mut [u16; MOST_SEGMENTS],
)
    requires { (n ≤ most_segments) × (length seen.old ≡ most_edges) × (length next.old ≡ most_segments) }
    ensures { Led edges.now n broken.now seen.old next.old seen.new next.new }
{
    let mut i = n;
    // a while: it counts down while it moves elements
    while 0 < i {
        i = i - 1;
        let k = place(edges[i]);
        if MOST_EDGES <= k {
            continue;
        }
        if !broken[k] {
            continue;
        }
        next[i] = seen[k];
        seen[k] = i as u16;
    }
}
