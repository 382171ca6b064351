// Whether lent edges have zones where the group has none.
ghost use Rattle.std.specs.Prelude.{◌≡◌, ◌≤◌};
ghost use Rattle.axis.specs.Limits.{most_edges};
ghost use Rattle.zones_stems.specs.Joined.{zones_hold};
ghost use Rattle.words.specs.Edge.{edges_in};
ghost use Rattle.words_edge.specs.Whole.{axis_in};

use axis::accept::EdgeTest;
use axis::kinds::{Dimension, Group};
use axis::limits::MOST_EDGES;
use words::edge::EDGE_WORDS;
use words_edge_test::exact::every_edge;
use zones::group::has_blues;

// Whether the group has zones on the dimension, or no edge has one. Of more edges than the limit none is read.
pub fn zones_hold(words: &[i32], dim: Dimension, group: Group) -> bool
    ensures { edges_in words.now ≤ most_edges → result ≡ zones_hold group (axis_in words.now dim) }
{
    if has_blues(group, dim) {
        return true;
    }
    if MOST_EDGES < words.len() / EDGE_WORDS {
        return true;
    }
    every_edge(words, EdgeTest::Bare)
}
