// Segments and edges turned over, one after the other.
ghost use Rattle.std.specs.Prelude.{◌≡◌, true, ◌≤◌};
ghost use Rattle.axis.specs.Limits.{most_edges};
ghost use Rattle.axis.specs.Refusals.{edges_indices};
ghost use Rattle.turn.specs.Indices.{segments_edges};
ghost use Rattle.turn.specs.Turning.{turned_axis, turned_segments};
ghost use Rattle.words.specs.Edge.{edges_over};
ghost use Rattle.words.specs.Segment.{flat_segments, segments_over};
ghost use Rattle.words_call.specs.Lent.{edges_of};
ghost use Rattle.words_edge.specs.Whole as Edges;
ghost use Rattle.words_segment.specs.Whole as Segments;

use turn::turn::{turned_edge, turned_link};
use words::edge::{EDGE_WORDS, TABLE_WORDS, edge_from, edge_words};
use words::field::link_at;
use words::segment::{EDGE_PLACE, SEGMENT_WORDS};
use words::word::write_words;
use words_segment::segment::put_edge;

// Renumbers the edge of every segment, one of so many.
pub fn turn_segments_in(segments: &mut [i32], count: usize)
    requires { Segments.Whole segments.old × (count ≤ most_edges) × (segments_edges count (flat_segments segments.old) ≡ true) }
    ensures { segments.new ≡ segments_over segments.old (turned_segments count (flat_segments segments.old)) }
{
    let n = segments.len() / SEGMENT_WORDS;
    for i in 0..n {
        let edge = link_at(segments, SEGMENT_WORDS * i + EDGE_PLACE);
        let turned = turned_link(edge, count);
        put_edge(segments, i, turned);
    }
}

// Puts the edges in the other order, each renumbered, from a copy of their words.
pub fn turn_edges_in(edges: &mut [i32])
    requires { Edges.Whole edges.old × (edges_indices (edges_of edges.old) ≡ true) }
    ensures { edges.new ≡ edges_over edges.old (turned_axis (edges_of edges.old)) }
{
    let count = edges.len() / EDGE_WORDS;
    let mut copy = [0; TABLE_WORDS];
    write_words(&mut copy, 0, edges);
    for i in 0..count {
        let edge = edge_from(&copy, EDGE_WORDS * (count - 1 - i));
        let words = edge_words(turned_edge(edge, count));
        write_words(edges, EDGE_WORDS * i, &words);
    }
}
