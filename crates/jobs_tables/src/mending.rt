// Mending, call 121: from the words of its job to those of its answer.
ghost use Rattle.std.specs.Prelude.{◌≤◌, length};

use axis::accept::least;
use axis::limits::{MOST_EDGES, MOST_SEGMENTS};
use khsaemudol::khs_mend;
use mend_amend_words::amend::{ALTERATION_WORDS, MOST_ALTERED};
use tool_lists::list::{part, put, put_list, tail};
use words::edge::EDGE_WORDS;
use words::segment::SEGMENT_WORDS;
use words::word::{count_at, size_of};

// The words of one segment and of one edge more than their limits, and of the list of alterations.
const SEGMENTS_ROOM: usize = SEGMENT_WORDS * (MOST_SEGMENTS + 1);

const EDGES_ROOM: usize = EDGE_WORDS * (MOST_EDGES + 1);

const ALTERED_ROOM: usize = ALTERATION_WORDS * MOST_ALTERED;

// Mends the first words of both rooms.
fn ask(
    segments: &mut [i32],
    lent: usize,
    edges: &mut [i32],
    also: usize,
    altered: &mut [i32],
    count: &mut i32,
) -> u8
    requires { (lent ≤ length segments.old) × (also ≤ length edges.old) × (10240 ≤ length altered.old) }
{
    khs_mend(
        &mut segments[0..lent],
        &mut edges[0..also],
        &mut altered[0..ALTERED_ROOM],
        count,
    )
}

// Writes segments, edges and the alterations, behind the answer.
fn put_mended(
    out: &mut [i32],
    answer: u8,
    segments: &[i32],
    given: usize,
    edges: &[i32],
    owned: usize,
    altered: &[i32],
    listed: usize,
) -> usize
    ensures { result ≤ length out.old }
{
    let n = SEGMENT_WORDS * least(given, MOST_SEGMENTS);
    let m = EDGE_WORDS * least(owned, MOST_EDGES);
    let entries = least(listed, MOST_ALTERED);
    let at = put(out, 0, &[answer as i32]);
    let at = put_list(out, at, given, part(segments, 0, n));
    let at = put_list(out, at, owned, part(edges, 0, m));
    put_list(
        out,
        at,
        entries,
        part(altered, 0, ALTERATION_WORDS * entries),
    )
}

// The answer to a job of mending: segments and edges. Of more records than their limit the call is lent one more than that, which is empty.
pub fn answer_mending(words: &[i32], out: &mut [i32]) -> usize
    ensures { result ≤ length out.old }
{
    let given = count_at(words, 1);
    let n = SEGMENT_WORDS * least(given, MOST_SEGMENTS);
    let rest = tail(words, 2 + n);
    let owned = count_at(rest, 0);
    let mut segments = [0i32; SEGMENTS_ROOM];
    put(&mut segments, 0, part(words, 2, n));
    let mut edges = [0i32; EDGES_ROOM];
    put(
        &mut edges,
        0,
        part(rest, 1, EDGE_WORDS * least(owned, MOST_EDGES)),
    );
    let mut altered = [0i32; ALTERED_ROOM];
    let mut count = 0;
    let answer = ask(
        &mut segments,
        SEGMENT_WORDS * least(given, MOST_SEGMENTS + 1),
        &mut edges,
        EDGE_WORDS * least(owned, MOST_EDGES + 1),
        &mut altered,
        &mut count,
    );
    put_mended(
        out,
        answer,
        &segments,
        given,
        &edges,
        owned,
        &altered,
        size_of(count),
    )
}
