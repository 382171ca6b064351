// A ring followed from its first segment.
ghost use Rattle.std.specs.Prelude.{◌≡◌, ◌≤◌};
ghost use Rattle.axis.specs.Limits.{most_segments};
ghost use Rattle.mend.specs.Following.{closes, own_in, next_in};

use axis::limits::MOST_SEGMENTS;

// An index as a place.
pub fn place(ix: u16) -> usize
    ensures { result ≡ ix }
{
    ix as usize
}

// Whether a ring of so many segments of an edge, of n in all, is sound: each step meets one of them, and the last one left is the last, whose next is the first.
pub fn ring_holds(
    edges: &[u16; MOST_SEGMENTS],
    next: &[u16; MOST_SEGMENTS],
    n: usize,
    edge: u16,
    first: u16,
    last: u16,
    count: u16,
) -> bool
    requires { n ≤ most_segments }
    ensures { result ≡ closes (own_in edges.now edge) (next_in next.now) n first last count first }
{
    let mut ix = first;
    let mut left = count;
    // a while: each step depends on the segment that it leads to
    while 0 < left {
        let at = place(ix);
        if n <= at {
            return false;
        }
        if edges[at] != edge {
            return false;
        }
        let after = next[at];
        if ix == last {
            if 1 < left {
                return false;
            }
            return after == first;
        }
        ix = after;
        left = left - 1;
    }
    false
}
