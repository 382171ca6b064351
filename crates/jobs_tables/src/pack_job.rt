// A smaller axis, call 123: from the words of its job to those of its answer.
ghost use Rattle.std.specs.Prelude.{◌≤◌, length};

use axis::accept::least;
use axis::limits::{MOST_EDGES, MOST_SEGMENTS};
use khsaemudol::khs_pack_axis;
use tool_lists::list::{part, put, put_list, tail};
use words::edge::EDGE_WORDS;
use words::segment::SEGMENT_WORDS;
use words::word::{count_at, count_word, size_of};

// The words of one segment and of one edge more than their limits.
const SEGMENTS_ROOM: usize = SEGMENT_WORDS * (MOST_SEGMENTS + 1);

const EDGES_ROOM: usize = EDGE_WORDS * (MOST_EDGES + 1);

// Packs the first words of both rooms.
fn ask(segments: &mut [i32], lent: usize, edges: &mut [i32], also: usize, kept: &mut i32) -> u8
    requires { (lent ≤ length segments.old) × (also ≤ length edges.old) }
{
    khs_pack_axis(&mut segments[0..lent], &mut edges[0..also], kept)
}

// How many records of a list of so many are not among the first ones.
fn freed(count: usize, first: usize) -> usize {
    if count < first {
        return 0;
    }
    count - first
}

// Writes segments, edges and the places that are freed, behind the answer.
fn put_packed(
    out: &mut [i32],
    answer: u8,
    segments: &[i32],
    given: usize,
    kept: usize,
    edges: &[i32],
    owned: usize,
) -> usize
    ensures { result ≤ length out.old }
{
    let first = SEGMENT_WORDS * least(kept, MOST_SEGMENTS);
    let empty = least(freed(given, kept), MOST_SEGMENTS);
    let at = put(out, 0, &[answer as i32]);
    let at = put_list(out, at, kept, part(segments, 0, first));
    let at = put_list(
        out,
        at,
        owned,
        part(edges, 0, EDGE_WORDS * least(owned, MOST_EDGES)),
    );
    put_list(out, at, empty, part(segments, first, SEGMENT_WORDS * empty))
}

// The answer to a job of a smaller axis: segments and edges. Of more records than their limit the call is lent one more than that, which is empty; a refusal leaves the count that is given in its place.
pub fn answer_pack(words: &[i32], out: &mut [i32]) -> usize
    ensures { result ≤ length out.old }
{
    let given = count_at(words, 1);
    let n = SEGMENT_WORDS * least(given, MOST_SEGMENTS);
    let rest = tail(words, 2 + n);
    let owned = count_at(rest, 0);
    let mut segments = [0i32; SEGMENTS_ROOM];
    put(&mut segments, 0, part(words, 2, n));
    let mut edges = [0i32; EDGES_ROOM];
    put(
        &mut edges,
        0,
        part(rest, 1, EDGE_WORDS * least(owned, MOST_EDGES)),
    );
    let mut kept = count_word(given);
    let answer = ask(
        &mut segments,
        SEGMENT_WORDS * least(given, MOST_SEGMENTS + 1),
        &mut edges,
        EDGE_WORDS * least(owned, MOST_EDGES + 1),
        &mut kept,
    );
    put_packed(out, answer, &segments, given, size_of(kept), &edges, owned)
}
