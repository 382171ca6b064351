// The segments of each edge counted, with the lowest and the highest of them.
ghost use Rattle.std.specs.Prelude.{◌≡◌, cond, ◌≤◌, eqb, replicate};
ghost use Rattle.axis.specs.Limits.{most_edges, most_segments};
ghost use Rattle.mend.specs.Rebuilt.{Tallied};

use super::follow::place;
use axis::limits::{MOST_EDGES, MOST_SEGMENTS};

// The lowest of so many numbers, or i where there are none.
fn lower(count: u16, low: u16, i: u16) -> u16
    ensures { result ≡ cond (eqb count 0) i low }
{
    if count == 0 {
        return i;
    }
    low
}

// Counts the first n segments by their edges; the lists hold nothing but zeros before.
pub fn tally(
    edges: &[u16; MOST_SEGMENTS],
    n: usize,
    counts: &mut [u16; MOST_EDGES],
    lows: &mut [u16; MOST_EDGES],
    highs: &mut [u16; MOST_EDGES],
)
    requires { (n ≤ most_segments) × (counts.old ≡ replicate most_edges 0) × (lows.old ≡ replicate most_edges 0) × (highs.old ≡ replicate most_edges 0) }
    ensures { Tallied edges.now n counts.new lows.new highs.new }
{
    for i in 0..n {
        let k = place(edges[i]);
        if MOST_EDGES <= k {
            continue;
        }
        let count = counts[k];
        let low = lows[k];
        lows[k] = lower(count, low, i as u16);
        highs[k] = i as u16;
        counts[k] = count + 1;
    }
}
