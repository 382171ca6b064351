// The pass over the edges.
ghost use Rattle.build_properties.specs.Steps.{Ready};
ghost use Rattle.words.specs.Segment.{flat_segments};
ghost use Rattle.words_call.specs.Lent.{edges_of};
ghost use Rattle.words_edge.specs.Whole.{Whole, Became};
ghost use Rattle.build_properties_words.specs.Reading.{Shorts};
ghost use Rattle.build_properties_words.specs.Steps.{properties_of};

use super::visit::visit_in;
use words::edge::EDGE_WORDS;

// Gives each edge its flags, its link and its serif, by the segments of its ring.
pub fn properties_in(segments: &[i32], edges: &mut [i32])
    requires { Whole edges.old × Ready (edges_of edges.old) (flat_segments segments.now) × Shorts segments.now }
    ensures { Became (properties_of (flat_segments segments.now)) edges.old edges.new }
{
    let n = edges.len() / EDGE_WORDS;
    for k in 0..n {
        visit_in(segments, edges, k);
    }
}
