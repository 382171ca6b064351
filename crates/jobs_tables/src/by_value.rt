// The calls on a table by value, in place of the library's functions.
use tool_values::edges::{
    ask_adjust, ask_blues, ask_blues_and_stems, ask_bounds, ask_linked_edge, ask_lowercase_m,
    ask_serif_edge, ask_stem, ask_stems,
};
use tool_values::segments::{ask_build, ask_link, ask_turn};

// The answer of a call on a table by value, whose other words are the rest, and what it hands back beside: a delta or a count first, else an index; edges that are built
// or turned over.
pub fn ask_by_value(
    call: usize,
    table: &mut [i32],
    rest: &[i32],
    edges: &mut [i32],
    first: &mut i32,
    second: &mut i32,
) -> u8 {
    match call {
        4 => ask_link(table, rest),
        105 => ask_build(table, rest, edges, first),
        106 => ask_blues(table, rest, first),
        107 => ask_linked_edge(table, rest),
        108 => ask_serif_edge(table, rest),
        109 => ask_adjust(table, rest),
        110 => ask_bounds(table, rest, first, second),
        111 => ask_stem(table, rest, first),
        112 => ask_stems(table, rest, first, second),
        122 => ask_blues_and_stems(table, rest, first, second),
        124 => ask_turn(table, rest, edges, first),
        _ => ask_lowercase_m(table, rest),
    }
}
