// The calls on segments: linking, building and turning over.
ghost use Rattle.std.specs.Prelude.{◌≤◌, ◌*◌};
ghost use Rattle.axis.specs.Limits.{most_edges};
ghost use Rattle.words.specs.Edge.{edge_size};

use super::tables::{axis_from, segments_from, write_edges, write_segments};
use axis::accept::least;
use axis::edge::Axis;
use axis::kinds::{Dimension, Direction};
use axis::limits::MOST_EDGES;
use build::numbers::Thresholds;
use build_table::compute::compute_edges;
use link_table::segments::link_segments_cjk;
use tool_lists::list::{part, tail};
use turn::turn::turn_over;
use words::edge::EDGE_WORDS;
use words::field::{choice_of, dimension_of, direction_of, group_of};
use words::word::{count_at, count_word, word_at};

// How many words the edges that a count stands in front of have, of which a job carries no more than the limit.
fn edges_size(rest: &[i32]) -> usize
    ensures { result ≤ edge_size * most_edges }
{
    EDGE_WORDS * least(count_at(rest, 0), MOST_EDGES)
}

// The axis of those edges, with that count.
fn counted_axis(rest: &[i32], dim: Dimension, major_dir: Direction) -> Axis {
    let mut axis = axis_from(part(rest, 1, edges_size(rest)), dim, major_dir);
    axis.len = count_at(rest, 0);
    axis
}

// Writes edges into their room, and their count.
fn give(edges: &mut [i32], count: &mut i32, axis: Axis) {
    write_edges(edges, axis);
    *count = count_word(axis.len);
}

// Links segments: the major direction, units per em and the scale.
pub fn ask_link(segments: &mut [i32], rest: &[i32]) -> u8 {
    let given = segments_from(segments);
    let linked = link_segments_cjk(
        given,
        direction_of(word_at(rest, 0)),
        word_at(rest, 1),
        word_at(rest, 2),
    );
    match linked {
        Ok(linked) => {
            write_segments(segments, linked);
            0
        }
        Err(refusal) => {
            write_segments(segments, given);
            u8::from(refusal)
        }
    }
}

// Builds edges: the old table, dimension, major direction, group, order, scale and thresholds.
pub fn ask_build(segments: &mut [i32], rest: &[i32], edges: &mut [i32], count: &mut i32) -> u8 {
    let behind = tail(rest, 1 + edges_size(rest));
    let old = counted_axis(
        rest,
        dimension_of(word_at(behind, 0)),
        direction_of(word_at(behind, 1)),
    );
    let thresholds = Thresholds {
        distance: word_at(behind, 5),
        length: word_at(behind, 6),
        width: word_at(behind, 7),
    };
    let given = segments_from(segments);
    let built = compute_edges(
        given,
        old,
        group_of(word_at(behind, 2)),
        choice_of(word_at(behind, 3)),
        word_at(behind, 4),
        thresholds,
    );
    match built {
        Ok(built) => {
            give(edges, count, built.axis);
            write_segments(segments, built.segments);
            0
        }
        Err(refusal) => {
            give(edges, count, old);
            write_segments(segments, given);
            u8::from(refusal)
        }
    }
}

// Turns edges over.
pub fn ask_turn(segments: &mut [i32], rest: &[i32], edges: &mut [i32], count: &mut i32) -> u8 {
    let axis = counted_axis(rest, Dimension::Horizontal, Direction::None);
    let given = segments_from(segments);
    match turn_over(axis, given) {
        Ok(turned) => {
            give(edges, count, turned.axis);
            write_segments(segments, turned.segments);
            0
        }
        Err(refusal) => {
            give(edges, count, axis);
            write_segments(segments, given);
            u8::from(refusal)
        }
    }
}
