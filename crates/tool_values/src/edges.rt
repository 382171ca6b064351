// The calls on edges.
use super::tables::{axis_from, axis_of, write_edges};
use axis::edge::Axis;
use axis::kinds::Direction;
use lowercase_m::hint::hint_lowercase_m;
use place_table::adjust::adjust_link;
use place_table::align::{align_linked_edge, align_serif_edge};
use place_table::bounds::latin_remaining_bounds;
use place_words::lend::link_dir_of;
use refusals::order::Refusal;
use stem_cjk_table::hint::hint_normal_stem_cjk;
use stems::outcome::Stems;
use stems_table::align::align_stem_edges;
use tool_lists::list::{list_at, tail};
use words::field::{choice_of, dimension_of, group_of, link_at, link_word, rule_of};
use words::word::{count_at, count_word, word_at};
use zones_stems_table::align::align_blues_and_stems;
use zones_table::align::align_edges_to_blues;

// The axis of a table whose dimension is the first of the other words.
fn axis_at(edges: &[i32], rest: &[i32]) -> Axis {
    axis_from(edges, dimension_of(word_at(rest, 0)), Direction::None)
}

// Writes the axis that a call hands back, and beside a refusal the one that it was given, and tells the answer.
fn give_axis(edges: &mut [i32], axis: Axis, fitted: Result<Axis, Refusal>) -> u8 {
    match fitted {
        Ok(fitted) => {
            write_edges(edges, fitted);
            0
        }
        Err(refusal) => {
            write_edges(edges, axis);
            u8::from(refusal)
        }
    }
}

// Puts edges on their zones: dimension, group and width rule.
pub fn ask_blues(edges: &mut [i32], rest: &[i32], anchor: &mut i32) -> u8 {
    let axis = axis_at(edges, rest);
    let aligned = align_edges_to_blues(
        axis,
        group_of(word_at(rest, 1)),
        rule_of(word_at(rest, 2)),
        list_at(rest, 3),
    );
    match aligned {
        Ok(zoned) => {
            *anchor = link_word(zoned.anchor);
            write_edges(edges, zoned.axis);
            0
        }
        Err(refusal) => {
            *anchor = link_word(None);
            write_edges(edges, axis);
            u8::from(refusal)
        }
    }
}

// Places a stem edge: the width rule, the base edge and the stem edge.
pub fn ask_linked_edge(edges: &mut [i32], rest: &[i32]) -> u8 {
    let standards = list_at(rest, 1);
    let behind = tail(rest, 2 + standards.len());
    let axis = axis_of(edges);
    let fitted = align_linked_edge(
        axis,
        rule_of(word_at(rest, 0)),
        standards,
        count_at(behind, 0),
        count_at(behind, 1),
    );
    give_axis(edges, axis, fitted)
}

// Places a serif edge: the base edge and the serif edge.
pub fn ask_serif_edge(edges: &mut [i32], rest: &[i32]) -> u8 {
    let axis = axis_of(edges);
    let fitted = align_serif_edge(axis, count_at(rest, 0), count_at(rest, 1));
    give_axis(edges, axis, fitted)
}

// Holds an edge to its neighbour: the edge, the neighbour's side and the order.
pub fn ask_adjust(edges: &mut [i32], rest: &[i32]) -> u8 {
    let axis = axis_of(edges);
    let fitted = adjust_link(
        axis,
        count_at(rest, 0),
        link_dir_of(word_at(rest, 1)),
        choice_of(word_at(rest, 2)),
    );
    give_axis(edges, axis, fitted)
}

// Finds the two edges that an edge stands between.
pub fn ask_bounds(edges: &[i32], rest: &[i32], lower: &mut i32, upper: &mut i32) -> u8 {
    match latin_remaining_bounds(axis_of(edges), count_at(rest, 0)) {
        Ok(found) => {
            *lower = link_word(found.lower);
            *upper = link_word(found.upper);
            0
        }
        Err(refusal) => {
            *lower = link_word(None);
            *upper = link_word(None);
            u8::from(refusal)
        }
    }
}

// Places a CJK stem: dimension, stem adjust, the width rule, the two edges and the delta.
pub fn ask_stem(edges: &mut [i32], rest: &[i32], own_delta: &mut i32) -> u8 {
    let standards = list_at(rest, 3);
    let behind = tail(rest, 4 + standards.len());
    let axis = axis_at(edges, rest);
    let hinted = hint_normal_stem_cjk(
        axis,
        choice_of(word_at(rest, 1)),
        rule_of(word_at(rest, 2)),
        standards,
        count_at(behind, 0),
        count_at(behind, 1),
        word_at(behind, 2),
    );
    match hinted {
        Ok(stem) => {
            *own_delta = stem.delta;
            write_edges(edges, stem.axis);
            0
        }
        Err(refusal) => {
            *own_delta = 0;
            write_edges(edges, axis);
            u8::from(refusal)
        }
    }
}

// Writes what the stem pass hands back, and beside a refusal the axis that it was given, and tells the answer.
fn give_stems(
    edges: &mut [i32],
    axis: Axis,
    aligned: Result<Stems, Refusal>,
    count: &mut i32,
    found: &mut i32,
) -> u8 {
    match aligned {
        Ok(stems) => {
            *count = count_word(stems.count);
            *found = link_word(stems.anchor);
            write_edges(edges, stems.axis);
            0
        }
        Err(refusal) => {
            *count = 0;
            *found = link_word(None);
            write_edges(edges, axis);
            u8::from(refusal)
        }
    }
}

// Aligns stems: dimension, group, stem adjust, top to bottom, the anchor and the width rule.
pub fn ask_stems(edges: &mut [i32], rest: &[i32], count: &mut i32, found: &mut i32) -> u8 {
    let axis = axis_at(edges, rest);
    let aligned = align_stem_edges(
        axis,
        group_of(word_at(rest, 1)),
        choice_of(word_at(rest, 2)),
        choice_of(word_at(rest, 3)),
        link_at(rest, 4),
        rule_of(word_at(rest, 5)),
        list_at(rest, 6),
    );
    give_stems(edges, axis, aligned, count, found)
}

// Puts edges on their zones and aligns stems: dimension, group, stem adjust, top to bottom and the width rule.
pub fn ask_blues_and_stems(
    edges: &mut [i32],
    rest: &[i32],
    count: &mut i32,
    found: &mut i32,
) -> u8 {
    let axis = axis_at(edges, rest);
    let aligned = align_blues_and_stems(
        axis,
        group_of(word_at(rest, 1)),
        choice_of(word_at(rest, 2)),
        choice_of(word_at(rest, 3)),
        rule_of(word_at(rest, 4)),
        list_at(rest, 5),
    );
    give_stems(edges, axis, aligned, count, found)
}

// Moves the third stem of an m: the group.
pub fn ask_lowercase_m(edges: &mut [i32], rest: &[i32]) -> u8 {
    let axis = axis_of(edges);
    let hinted = hint_lowercase_m(axis, group_of(word_at(rest, 0)));
    give_axis(edges, axis, hinted)
}
