// The rooms for copies of what is changed: small ones where a glyph is small, since every place is cleared first.
ghost use Rattle.std.specs.Prelude.{◌≡◌, true, ◌&&◌, ◌≤◌, length};
ghost use Rattle.refusals.specs.Outcome.{answer_of};
ghost use Rattle.weak_contour.specs.Limits.{most_points};
ghost use Rattle.words.specs.Edge.{table_size};
ghost use Rattle.edge_points.specs.Steps.{points};
ghost use Rattle.fit.specs.Fit.{given, fitted};
ghost use Rattle.fit_back_words.specs.Back.{Accepted, FitsIn};
ghost use Rattle.fit_words.specs.Rooms.{Small};

use fit::numbers::Numbers;
use fit_back_words::rooms::fit_in_rooms;
use refusals::order::Refusal;
use weak::limits::MOST_POINTS;
use words::edge::TABLE_WORDS;

// How many words of edges and how many points a small glyph has: 16 edges, 128 points.
const FEW_WORDS: usize = 192;

const FEW_POINTS: usize = 128;

// Whether so many words of edges and so many points are those of a small glyph.
fn is_small(words: usize, count: usize) -> bool
    ensures { result ≡ true → Small words count }
{
    if FEW_WORDS < words {
        return false;
    }
    count <= FEW_POINTS
}

// Fits an axis with rooms for so many words of edges and so many points.
fn fit_in<const WORDS: usize, const POINTS: usize>(
    segments: &[i32],
    edges: &mut [i32],
    by: Numbers,
    standards: &[i32],
    fonts: &[i16],
    originals: &[i32],
    currents: &mut [i32],
    touched: &mut [u8],
    weak: &[u8],
    ends: &[u16],
    told: &mut [i32],
) -> Result<(), Refusal>
    requires accepted { Accepted by (given segments.now standards.now fonts.now originals.now weak.now ends.now) (fitted edges.old (points currents.old touched.old) told.old) }
    requires small { (length edges.old ≤ WORDS) × (length currents.old ≤ POINTS) }
    requires sizes { (WORDS ≤ table_size) × (POINTS ≤ most_points) }
    ensures { FitsIn by (given segments.now standards.now fonts.now originals.now weak.now ends.now)
        (fitted edges.old (points currents.old touched.old) told.old)
        (answer_of result) (fitted edges.new (points currents.new touched.new) told.new) }
{
    let mut room = [0i32; WORDS];
    let mut spare = [0i32; POINTS];
    let mut marks = [0u8; POINTS];
    let room = &mut room[..];
    let spare = &mut spare[..];
    let marks = &mut marks[..];
    let n = edges.len();
    let m = currents.len();
    fit_in_rooms(
        segments,
        edges,
        by,
        standards,
        fonts,
        originals,
        currents,
        touched,
        weak,
        ends,
        told,
        &mut room[0..n],
        &mut spare[0..m],
        &mut marks[0..m],
    )
}

// Fits an axis that no test refuses.
pub fn fit_accepted(
    segments: &[i32],
    edges: &mut [i32],
    by: Numbers,
    standards: &[i32],
    fonts: &[i16],
    originals: &[i32],
    currents: &mut [i32],
    touched: &mut [u8],
    weak: &[u8],
    ends: &[u16],
    told: &mut [i32],
) -> Result<(), Refusal>
    requires { Accepted by (given segments.now standards.now fonts.now originals.now weak.now ends.now) (fitted edges.old (points currents.old touched.old) told.old) }
    ensures { FitsIn by (given segments.now standards.now fonts.now originals.now weak.now ends.now)
        (fitted edges.old (points currents.old touched.old) told.old)
        (answer_of result) (fitted edges.new (points currents.new touched.new) told.new) }
{
    if is_small(edges.len(), currents.len()) {
        return fit_in::<FEW_WORDS, FEW_POINTS>(
            segments, edges, by, standards, fonts, originals, currents, touched, weak, ends, told,
        );
    }
    fit_in::<TABLE_WORDS, MOST_POINTS>(
        segments, edges, by, standards, fonts, originals, currents, touched, weak, ends, told,
    )
}
