// Which rings of lent edges are broken.
ghost use Rattle.std.specs.Prelude.{◌≡◌, false, ◌≤◌, replicate};
ghost use Rattle.axis.specs.Limits.{most_edges, most_segments};
ghost use Rattle.words.specs.Edge.{edges_in};
ghost use Rattle.mend_rings_words.specs.Followed.{FollowedTo};

use axis::limits::{MOST_EDGES, MOST_SEGMENTS};
use mend::follow::ring_holds;
use words::edge::{EDGE_WORDS, FIRST_PLACE, LAST_PLACE};
use words::field::index_at;

// Follows the ring of every edge; the list holds nothing but false before.
pub fn find_broken(
    lent: &[i32],
    edges: &[u16; MOST_SEGMENTS],
    next: &[u16; MOST_SEGMENTS],
    n: usize,
    counts: &[u16; MOST_EDGES],
    broken: &mut [bool; MOST_EDGES],
)
    requires { (n ≤ most_segments) × (edges_in lent.now ≤ most_edges) × (broken.old ≡ replicate most_edges false) }
    ensures { FollowedTo lent.now edges.now next.now n counts.now (edges_in lent.now) broken.new }
{
    let m = lent.len() / EDGE_WORDS;
    for k in 0..m {
        let at = EDGE_WORDS * k;
        let first = index_at(lent, at + FIRST_PLACE);
        let last = index_at(lent, at + LAST_PLACE);
        let holds = ring_holds(edges, next, n, k as u16, first, last, counts[k]);
        broken[k] = !holds;
    }
}
