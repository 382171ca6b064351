// The guard.
use super::tables::axis_of;
use gaps::find::{NOTHING, lost_gaps};
use words::field::{choice_of, link_word};
use words::word::count_word;

// Finds lost gaps of at least a width, and lost stems: the answer, the count of gaps, the two edges of the first pair, its widths before and after, the count of stems, and that of edges
// not done; beside a refusal nothing is found.
pub fn ask_guard(edges: &[i32], least: i32, linked: i32) -> [i32; 8] {
    let (answer, found) = match lost_gaps(axis_of(edges), least, choice_of(linked)) {
        Ok(found) => (0, found),
        Err(refusal) => (u8::from(refusal), NOTHING),
    };
    let pair = found.pair;
    [
        answer as i32,
        count_word(found.count),
        link_word(pair.first),
        link_word(pair.second),
        pair.before,
        pair.after,
        count_word(found.stems),
        count_word(found.not_done),
    ]
}
