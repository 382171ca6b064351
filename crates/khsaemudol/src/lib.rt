// The static library that gateways link: the public calls under C names. A slice is passed as its pointer and then its length. Edges are lists of 12 words each
// and segments of 15; the answer is 0 or the number of the refusal, and 255 where a length or a word is none. include/khsaemudol.h documents each.
#![tactic(auto)]

ghost use Rattle.khsaemudol.specs.Version.{IsVersion};
ghost use Rattle.middle.specs.Middle.{ComputesMidPos, ComputesMidDelta};
ghost use Rattle.weak.specs.Weak.{Outcome};
ghost use Rattle.weak_references.specs.References.{Remembered, AlignedWith};
ghost use Rattle.weak_drag.specs.Drag.{Dragged};
ghost use Rattle.edge_points.specs.Steps.{points};
ghost use Rattle.edge_points_words.specs.Align.{EdgePointsLent};
ghost use Rattle.weak_catalogue.specs.Catalogue.{Catalogued};
ghost use Rattle.log_frame.specs.Frame.{frame_of};
ghost use Rattle.log_frame_words.specs.Lent.{WritesLent, ReadsLent};
ghost use Rattle.build_words.specs.Lent.{thresholds_of, BuiltLent};
ghost use Rattle.place_words.specs.Lent.{LinkedLent, SerifLent, AdjustLent, BoundsLent};
ghost use Rattle.link_words.specs.Lent.{LinkingLent};
ghost use Rattle.lowercase_m_words.specs.Lent.{MLent};
ghost use Rattle.stem_cjk_words.specs.Lent.{StemLent};
ghost use Rattle.stems_words.specs.Lent.{StemsLent};
ghost use Rattle.zones_stems_words.specs.Lent.{JoinedLent};
ghost use Rattle.zones_words.specs.Lent.{ZonesLent};
ghost use Rattle.path.specs.Lending.{StepLent};
ghost use Rattle.path_lay.specs.Laying.{lent};
ghost use Rattle.path_whole.specs.Writing.{WritesPath};
ghost use Rattle.pack_words.specs.Pack.{PackedLent};
ghost use Rattle.turn_words.specs.Lent.{TurnedLent};
ghost use Rattle.gaps_words.specs.Find.{GapsLent};
ghost use Rattle.mend_words.specs.Mending.{MendedLent};
ghost use Rattle.remaining_words.specs.Lent.{RemainingLent};
ghost use Rattle.strong_words.specs.Strong.{StrongLent};
ghost use Rattle.fit.specs.Fit.{given, fitted, FitLent};
ghost use Rattle.shown_count.specs.Count.{ShownLent};

use build::numbers::Thresholds;
use build_words::lend::lend_building;
use edge_points_words::align::lend_edge_points;
use fit_words::lend::lend_fit;
use gaps_words::find::lend_gaps;
use link_words::lend::lend_linking;
use log_frame_words::{lend_read, lend_write};
use lowercase_m_words::lend::lend_m;
use mend_words::lend::lend_mending;
use middle::{compute_mid_delta, compute_mid_pos};
use pack_words::lend::lend_packing;
use path::lend::lend_step;
use path_whole::whole::path;
use place_words::lend::{lend_adjust, lend_bounds, lend_linked_edge, lend_serif_edge};
use refusals::order::answer_of;
use remaining_words::lend::lend_remaining;
use shown_count::lend::lend_shown;
use stem_cjk_words::lend::lend_stem;
use stems_words::lend::lend_stems;
use strong_words::align::align_strong_points;
use turn_words::lend::lend_turning;
use weak::weak::align_weak_points;
use weak_catalogue::align::align_catalogue;
use weak_drag::drag::lend_drag;
use weak_references::align::align_with_references;
use weak_references::remember::remember_references;
use zones_stems_words::lend::lend_joined;
use zones_words::lend::lend_zones;

// The number of the release, which is KHS_VERSION in the header of the same one.
#[unsafe(no_mangle)]
pub extern "C" fn khs_version() -> u32
    ensures { IsVersion result }
{
    10000
}

// The middle of two coordinates.
#[unsafe(no_mangle)]
pub extern "C" fn khs_compute_mid_pos(min: i32, max: i32) -> i16
    ensures { ComputesMidPos min max result }
{
    compute_mid_pos(min, max)
}

// Half the difference of two coordinates.
#[unsafe(no_mangle)]
pub extern "C" fn khs_compute_mid_delta(min: i32, max: i32) -> i16
    ensures { ComputesMidDelta min max result }
{
    compute_mid_delta(min, max)
}

// Aligns the weak points of one axis. The answer is 0, or document 01's number of the refusal, 1, 3, 4 or 8, which writes nothing.
#[unsafe(no_mangle)]
pub extern "C" fn khs_align_weak_points(
    originals: &[i32],
    currents: &mut [i32],
    touched: &[u8],
    ends: &[u16],
) -> u8
    ensures { Outcome originals.now currents.old touched.now ends.now result currents.new }
{
    answer_of(align_weak_points(originals, currents, touched, ends))
}

// Writes who refers to whom into two lists. The answer is 0, or the number of the refusal, 1 or 3, which writes nothing.
#[unsafe(no_mangle)]
pub extern "C" fn khs_remember_references(
    touched: &[u8],
    ends: &[u16],
    before: &mut [u16],
    behind: &mut [u16],
) -> u8
    ensures { Remembered touched.now ends.now before.old behind.old result before.new behind.new }
{
    answer_of(remember_references(touched, ends, before, behind))
}

// Aligns the weak points of one axis by these lists. The answer is 0, or the number of the refusal, 1, 3, 9, 4 or 8, which writes nothing.
#[unsafe(no_mangle)]
pub extern "C" fn khs_align_with_references(
    originals: &[i32],
    currents: &mut [i32],
    touched: &[u8],
    ends: &[u16],
    before: &[u16],
    behind: &[u16],
) -> u8
    ensures { AlignedWith originals.now currents.old touched.now ends.now before.now behind.now result currents.new }
{
    answer_of(align_with_references(originals, currents, touched, ends, before, behind))
}

// Fits again what depends on one touched point, whose current is set. The answer is 0, or the number of the refusal, 1, 3, 4 or 8, which writes nothing.
#[unsafe(no_mangle)]
pub extern "C" fn khs_drag_point(
    originals: &[i32],
    currents: &mut [i32],
    touched: &[u8],
    ends: &[u16],
    point: u32,
) -> u8
    ensures { Dragged originals.now currents.old touched.now ends.now point result currents.new }
{
    answer_of(lend_drag(originals, currents, touched, ends, point))
}

// Moves the points of every segment that has an edge to the edge's position, or by as much as the edge was moved, and touches them.
#[unsafe(no_mangle)]
pub extern "C" fn khs_align_edge_points(
    segments: &[i32],
    edges: &[i32],
    snap: i32,
    done_alone: i32,
    currents: &mut [i32],
    touched: &mut [u8],
    ends: &[u16],
) -> u8
    ensures { EdgePointsLent segments.now edges.now snap done_alone ends.now (points currents.old touched.old)
        result (points currents.new touched.new) }
{
    answer_of(lend_edge_points(segments, edges, snap, done_alone, currents, touched, ends))
}

// Aligns the weak points of every outline of a catalogue. The answer is 1, and nothing is written, where the counts do not add up; else 0, and each outline has its own.
#[unsafe(no_mangle)]
pub extern "C" fn khs_align_catalogue(
    originals: &[i32],
    currents: &mut [i32],
    touched: &[u8],
    ends: &[u16],
    point_counts: &[u16],
    contour_counts: &[u16],
    answers: &mut [u8],
) -> u8
    ensures { Catalogued originals.now currents.old touched.now ends.now point_counts.now contour_counts.now
        answers.old result currents.new answers.new }
{
    answer_of(align_catalogue(
        originals,
        currents,
        touched,
        ends,
        point_counts,
        contour_counts,
        answers,
    ))
}

// Links CJK segments into stems and serifs.
#[unsafe(no_mangle)]
pub extern "C" fn khs_link_segments_cjk(
    segments: &mut [i32],
    major_dir: i32,
    units_per_em: i32,
    scale: i32,
) -> u8
    ensures { LinkingLent segments.old major_dir units_per_em scale result segments.new }
{
    answer_of(lend_linking(segments, major_dir, units_per_em, scale))
}

// Builds the edges of segments.
#[unsafe(no_mangle)]
pub extern "C" fn khs_compute_edges(
    segments: &mut [i32],
    edges: &mut [i32],
    dim: i32,
    major_dir: i32,
    group: i32,
    top_to_bottom: i32,
    scale: i32,
    distance: i32,
    length: i32,
    width: i32,
    count: &mut i32,
) -> u8
    ensures { BuiltLent segments.old edges.old dim major_dir group top_to_bottom scale (thresholds_of distance length width) count.old
        result (segments.new, (edges.new, count.new)) }
{
    let thresholds = Thresholds {
        distance,
        length,
        width,
    };
    answer_of(lend_building(
        segments,
        edges,
        dim,
        major_dir,
        group,
        top_to_bottom,
        scale,
        thresholds,
        count,
    ))
}

// Puts edges on their blue zones.
#[unsafe(no_mangle)]
pub extern "C" fn khs_align_edges_to_blues(
    edges: &mut [i32],
    dim: i32,
    group: i32,
    rule: i32,
    standards: &[i32],
    anchor: &mut i32,
) -> u8
    ensures { ZonesLent edges.old dim group rule standards.now anchor.old result (edges.new, anchor.new) }
{
    answer_of(lend_zones(edges, dim, group, rule, standards, anchor))
}

// Places a stem edge by its base edge.
#[unsafe(no_mangle)]
pub extern "C" fn khs_align_linked_edge(
    edges: &mut [i32],
    rule: i32,
    standards: &[i32],
    base: i32,
    stem: i32,
) -> u8
    ensures { LinkedLent edges.old rule standards.now base stem result edges.new }
{
    answer_of(lend_linked_edge(edges, rule, standards, base, stem))
}

// Places a serif edge by its base edge.
#[unsafe(no_mangle)]
pub extern "C" fn khs_align_serif_edge(edges: &mut [i32], base: i32, serif: i32) -> u8
    ensures { SerifLent edges.old base serif result edges.new }
{
    answer_of(lend_serif_edge(edges, base, serif))
}

// Holds an edge to its neighbour where it has passed it.
#[unsafe(no_mangle)]
pub extern "C" fn khs_adjust_link(edges: &mut [i32], edge: i32, dir: i32, top_to_bottom: i32) -> u8
    ensures { AdjustLent edges.old edge dir top_to_bottom result edges.new }
{
    answer_of(lend_adjust(edges, edge, dir, top_to_bottom))
}

// Finds the two edges that a remaining edge stands between.
#[unsafe(no_mangle)]
pub extern "C" fn khs_latin_remaining_bounds(
    edges: &[i32],
    edge: i32,
    lower: &mut i32,
    upper: &mut i32,
) -> u8
    ensures { BoundsLent edges.now edge (lower.old, upper.old) result (lower.new, upper.new) }
{
    answer_of(lend_bounds(edges, edge, lower, upper))
}

// Places both edges of a CJK stem.
#[unsafe(no_mangle)]
pub extern "C" fn khs_hint_normal_stem_cjk(
    edges: &mut [i32],
    dim: i32,
    stem_adjust: i32,
    rule: i32,
    standards: &[i32],
    edge: i32,
    edge2: i32,
    delta: i32,
    own_delta: &mut i32,
) -> u8
    ensures { StemLent edges.old dim stem_adjust rule standards.now edge edge2 delta own_delta.old result (edges.new, own_delta.new) }
{
    answer_of(lend_stem(
        edges,
        dim,
        stem_adjust,
        rule,
        standards,
        edge,
        edge2,
        delta,
        own_delta,
    ))
}

// Aligns all stems.
#[unsafe(no_mangle)]
pub extern "C" fn khs_align_stem_edges(
    edges: &mut [i32],
    dim: i32,
    group: i32,
    stem_adjust: i32,
    top_to_bottom: i32,
    anchor: i32,
    rule: i32,
    standards: &[i32],
    count: &mut i32,
    found: &mut i32,
) -> u8
    ensures { StemsLent edges.old dim group stem_adjust top_to_bottom anchor rule standards.now count.old found.old
        result (edges.new, (count.new, found.new)) }
{
    answer_of(lend_stems(
        edges,
        dim,
        group,
        stem_adjust,
        top_to_bottom,
        anchor,
        rule,
        standards,
        count,
        found,
    ))
}

// Puts edges on their blue zones, then aligns all stems.
#[unsafe(no_mangle)]
pub extern "C" fn khs_align_blues_and_stems(
    edges: &mut [i32],
    dim: i32,
    group: i32,
    stem_adjust: i32,
    top_to_bottom: i32,
    rule: i32,
    standards: &[i32],
    count: &mut i32,
    found: &mut i32,
) -> u8
    ensures { JoinedLent edges.old dim group stem_adjust top_to_bottom rule standards.now count.old found.old
        result (edges.new, (count.new, found.new)) }
{
    answer_of(lend_joined(
        edges,
        dim,
        group,
        stem_adjust,
        top_to_bottom,
        rule,
        standards,
        count,
        found,
    ))
}

// Aligns the edges that blue zones and stems have left, and tells the anchor.
#[unsafe(no_mangle)]
pub extern "C" fn khs_align_remaining_edges(
    edges: &mut [i32],
    dim: i32,
    group: i32,
    count: i32,
    anchor: i32,
    found: &mut i32,
) -> u8
    ensures { RemainingLent edges.old dim group count anchor found.old result (edges.new, found.new) }
{
    answer_of(lend_remaining(edges, dim, group, count, anchor, found))
}

// Moves the third stem of a lowercase m.
#[unsafe(no_mangle)]
pub extern "C" fn khs_hint_lowercase_m(edges: &mut [i32], group: i32) -> u8
    ensures { MLent edges.old group result edges.new }
{
    answer_of(lend_m(edges, group))
}

// Hands out one step of an outline's path.
#[unsafe(no_mangle)]
pub extern "C" fn khs_path_step(
    xs: &[i32],
    ys: &[i32],
    marks: &[u8],
    ends: &[u16],
    cursor: u32,
    kind: &mut u8,
    places: &mut [f32; 4],
    next: &mut u32,
) -> u8
    ensures { StepLent xs.now ys.now marks.now ends.now cursor kind.old places.old next.old
        result kind.new places.new next.new }
{
    answer_of(lend_step(xs, ys, marks, ends, cursor, kind, places, next))
}

// Writes all steps of an outline's path.
#[unsafe(no_mangle)]
pub extern "C" fn khs_path(
    xs: &[i32],
    ys: &[i32],
    marks: &[u8],
    ends: &[u16],
    kinds: &mut [u8],
    places: &mut [f32],
    count: &mut u32,
) -> u8
    ensures { WritesPath xs.now ys.now marks.now ends.now (lent kinds.old places.old count.old)
        result (lent kinds.new places.new count.new) }
{
    answer_of(path(xs, ys, marks, ends, kinds, places, count))
}

// Counts the pixels that a display shows black of an outline, magnified, and tells their Euler number.
#[unsafe(no_mangle)]
pub extern "C" fn khs_count_shown(
    xs: &[i32],
    ys: &[i32],
    marks: &[u8],
    ends: &[u16],
    magnify: i32,
    black: &mut u32,
    euler: &mut i32,
) -> u8
    ensures { ShownLent xs.now ys.now marks.now ends.now magnify black.old euler.old
        result black.new euler.new }
{
    answer_of(lend_shown(xs, ys, marks, ends, magnify, black, euler))
}

// Writes a weak-point job as one line of a log.
#[unsafe(no_mangle)]
pub extern "C" fn khs_write_frame(
    originals: &[i32],
    currents: &[i32],
    touched: &[u8],
    ends: &[u16],
    line: &mut [u8],
    digits: &mut u32,
) -> u8
    ensures { WritesLent (frame_of originals.now currents.now touched.now ends.now) line.old digits.old
        result (line.new, digits.new) }
{
    answer_of(lend_write(originals, currents, touched, ends, line, digits))
}

// Reads a line of a log as a weak-point job.
#[unsafe(no_mangle)]
pub extern "C" fn khs_read_frame(
    line: &[u8],
    originals: &mut [i32],
    currents: &mut [i32],
    touched: &mut [u8],
    ends: &mut [u16],
    points: &mut u32,
    contours: &mut u32,
) -> u8
    ensures { ReadsLent line.now (frame_of originals.old currents.old touched.old ends.old) points.old contours.old
        result (frame_of originals.new currents.new touched.new ends.new, (points.new, contours.new)) }
{
    answer_of(lend_read(line, originals, currents, touched, ends, points, contours))
}

// Turns the edges of an axis over, with the indices that lead to them.
#[unsafe(no_mangle)]
pub extern "C" fn khs_turn_over(segments: &mut [i32], edges: &mut [i32]) -> u8
    ensures { TurnedLent segments.old edges.old result (segments.new, edges.new) }
{
    answer_of(lend_turning(segments, edges))
}

// Mends an axis whose indices name records that are gone, or whose rings do not close, and lists what was altered.
#[unsafe(no_mangle)]
pub extern "C" fn khs_mend(
    segments: &mut [i32],
    edges: &mut [i32],
    altered: &mut [i32],
    count: &mut i32,
) -> u8
    ensures { MendedLent segments.old edges.old altered.old count.old
        result (segments.new, (edges.new, (altered.new, count.new))) }
{
    answer_of(lend_mending(segments, edges, altered, count))
}

// Keeps of an axis the segments that serve its edges, and counts them.
#[unsafe(no_mangle)]
pub extern "C" fn khs_pack_axis(segments: &mut [i32], edges: &mut [i32], count: &mut i32) -> u8
    ensures { PackedLent segments.old edges.old count.old result (segments.new, (edges.new, count.new)) }
{
    answer_of(lend_packing(segments, edges, count))
}

// Finds the gaps and the stems between placed edges that fitting has lost, and counts the edges that are not done.
#[unsafe(no_mangle)]
pub extern "C" fn khs_lost_gaps(
    edges: &[i32],
    least: i32,
    linked: i32,
    count: &mut i32,
    first: &mut i32,
    second: &mut i32,
    before: &mut i32,
    after: &mut i32,
    stems: &mut i32,
    not_done: &mut i32,
) -> u8
    ensures { GapsLent edges.now least linked
        (count.old, (first.old, (second.old, (before.old, (after.old, (stems.old, not_done.old))))))
        result (count.new, (first.new, (second.new, (before.new, (after.new, (stems.new, not_done.new)))))) }
{
    answer_of(lend_gaps(
        edges, least, linked, count, first, second, before, after, stems, not_done,
    ))
}

// Aligns the points of one axis that are neither touched nor weak by the edges around them, and touches them. The answer is 0, or the number of the refusal, which writes nothing: 255 for
// words that are no edges, 1, 3 or 4, and 8 where such a point needs a quotient that is too steep, or would leave the range of positions.
#[unsafe(no_mangle)]
pub extern "C" fn khs_align_strong_points(
    edges: &[i32],
    fonts: &[i16],
    originals: &[i32],
    currents: &mut [i32],
    touched: &mut [u8],
    weak: &[u8],
) -> u8
    ensures { StrongLent edges.now fonts.now originals.now currents.old touched.old weak.now
        result (currents.new, touched.new) }
{
    answer_of(align_strong_points(edges, fonts, originals, currents, touched, weak))
}

// Fits the edges of one axis and moves its points by them, and tells what became of the edges: blue zones and stems, the rule of the m, remaining edges, the guard, edge points, strong points
// and weak points in a row. The answer is 0, or the number of the refusal, which writes nothing: 255 for words and lengths, 1, 2, 3 or 4, and 4 or 8 where a step on the way refuses.
#[unsafe(no_mangle)]
pub extern "C" fn khs_fit_axis(
    segments: &[i32],
    edges: &mut [i32],
    numbers: &[i32],
    standards: &[i32],
    fonts: &[i16],
    originals: &[i32],
    currents: &mut [i32],
    touched: &mut [u8],
    weak: &[u8],
    ends: &[u16],
    told: &mut [i32],
) -> u8
    ensures { FitLent numbers.now (given segments.now standards.now fonts.now originals.now weak.now ends.now)
        (fitted edges.old (points currents.old touched.old) told.old)
        result (fitted edges.new (points currents.new touched.new) told.new) }
{
    answer_of(lend_fit(
        segments, edges, numbers, standards, fonts, originals, currents, touched, weak, ends, told,
    ))
}
