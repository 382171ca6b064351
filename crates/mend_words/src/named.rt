// Whether every edge has a segment.
ghost use Rattle.std.specs.Prelude.{◌≡◌, ℕ, ◌≤◌, ltb, get_or};
ghost use Rattle.axis.specs.Limits.{most_edges};
ghost use Rattle.axis.specs.Refusals.{every};
ghost use Rattle.mend_words.specs.Named.{is_named};

use axis::limits::MOST_EDGES;

// Whether each of the first m counts is of a segment or more.
pub fn all_named(counts: &[u16; MOST_EDGES], m: usize) -> bool
    requires { m ≤ most_edges }
    ensures { result ≡ every (is_named counts.now) m }
{
    for k in 0..m {
        if counts[k] < 1 {
            return false;
        }
    }
    true
}
