// The shift and the interpolation of untouched points (the Rust's `iup_shift` and `iup_interpolate`), on a stretch of the lists.
ghost use Rattle.std.specs.Prelude.{◌≡◌, ◌≤◌, ◌<◌, length, false};
ghost use Rattle.std.specs.Int.Signed.{lt_z};
ghost use Rattle.signed.specs.Range.{Between};
ghost use Rattle.weak_contour.specs.Limits.{most_delta};
ghost use Rattle.weak_contour.specs.Contour.{at, refs, interpolated, between_at, shifted_at, steep_between};
ghost use Rattle.weak_contour.specs.Steps.{Coordinate, Coordinates, Wrote, slope, Ordered, span_of, SpanHolds, spanned_at, moved_by, GentleSpan, GentleRefs};

use fixed::point::{fixed_div, fixed_mul};

// The originals v1, v2 and the currents u1, u2 of two references, and the scale from the originals to the currents.
#[derive(Clone, Copy)]
pub struct Span {
    pub v1: i32,
    pub u1: i32,
    pub v2: i32,
    pub u2: i32,
    pub scale: i32,
}

// The fixed quotient of the spans between two references, 0 where it is not used.
fn slope_of(v1: i32, u1: i32, v2: i32, u2: i32) -> i32
    requires { Ordered v1 u1 v2 u2 }
    ensures { result ≡ slope v1 u1 v2 u2 }
{
    if u1 == u2 {
        return 0;
    }
    if v1 == v2 {
        return 0;
    }
    let quotient = fixed_div(u2 - u1, v2 - v1);
    let Some(scale) = quotient else {
        return 0;
    };
    scale
}

// The span between two references.
fn span_of(v1: i32, u1: i32, v2: i32, u2: i32) -> Span
    requires { Ordered v1 u1 v2 u2 }
    ensures { result ≡ span_of v1 u1 v2 u2 }
{
    let scale = slope_of(v1, u1, v2, u2);
    Span {
        v1,
        u1,
        v2,
        u2,
        scale,
    }
}

// Where an original comes to by two references.
fn place(v: i32, span: Span) -> i32
    requires coordinate { Coordinate v }
    requires span_holds { SpanHolds span × (steep_between v span.v1 span.u1 span.v2 span.u2 ≡ false) }
    ensures { result ≡ interpolated v span.v1 span.u1 span.v2 span.u2 }
{
    if v <= span.v1 {
        return v + (span.u1 - span.v1);
    }
    if span.v2 <= v {
        return v + (span.u2 - span.v2);
    }
    if span.u1 == span.u2 {
        return span.u1;
    }
    span.u1 + fixed_mul(v - span.v1, span.scale)
}

// Places the points from `from` up to `to` by two references.
fn fill(originals: &[i32], currents: &mut [i32], from: usize, to: usize, span: Span)
    requires currents_len { (length currents.old ≡ length originals.now) × (from ≤ to) × (to ≤ length originals.now) }
    requires coordinates { Coordinates originals.now × SpanHolds span × GentleSpan originals.now span from to }
    ensures { Wrote (spanned_at originals.now span) from to currents.old currents.new }
{
    for i in from..to {
        let u = place(originals[i], span);
        currents[i] = u;
    }
}

// Whether the reference behind is the first: its original is the smaller. At equal originals the one before is.
pub fn behind_is_first(v1: i32, v2: i32) -> bool
    ensures { result ≡ lt_z v2 v1 }
{
    v2 < v1
}

// Interpolates the points from `from` up to `to` by the references ref1, before them, and ref2, behind them.
pub fn iup_interpolate(
    originals: &[i32],
    currents: &mut [i32],
    from: usize,
    to: usize,
    ref1: usize,
    ref2: usize,
)
    requires currents_len { (length currents.old ≡ length originals.now) × (from ≤ to) × (to ≤ length originals.now) }
    requires ref1_in_bounds { (ref1 < length originals.now) × (ref2 < length originals.now) }
    requires coordinates { Coordinates originals.now × Coordinate (at currents.old ref1) × Coordinate (at currents.old ref2) × GentleRefs originals.now currents.old (refs ref1 ref2) from to }
    ensures { Wrote (between_at originals.now currents.old (refs ref1 ref2)) from to currents.old currents.new }
{
    if to <= from {
        return;
    }
    let v1 = originals[ref1];
    let v2 = originals[ref2];
    let u1 = currents[ref1];
    let u2 = currents[ref2];
    if behind_is_first(v1, v2) {
        fill(originals, currents, from, to, span_of(v2, u2, v1, u1));
    } else {
        fill(originals, currents, from, to, span_of(v1, u1, v2, u2));
    }
}

// Moves the points from `from` up to `to` by delta.
fn move_by(originals: &[i32], currents: &mut [i32], from: usize, to: usize, delta: i32)
    requires currents_len { (length currents.old ≡ length originals.now) × (from ≤ to) × (to ≤ length originals.now) }
    requires coordinates { Coordinates originals.now × Between most_delta most_delta delta }
    ensures { Wrote (moved_by originals.now delta) from to currents.old currents.new }
{
    for i in from..to {
        let v = originals[i];
        currents[i] = v + delta;
    }
}

// Shifts the points from `from` up to `to` as the touched point p was. It may be one of them: it comes to where it is.
pub fn iup_shift(originals: &[i32], currents: &mut [i32], from: usize, to: usize, p: usize)
    requires currents_len { (length currents.old ≡ length originals.now) × (from ≤ to) × (to ≤ length originals.now) × (p < length originals.now) }
    requires coordinates { Coordinates originals.now × Coordinate (at currents.old p) }
    ensures { Wrote (shifted_at originals.now currents.old p) from to currents.old currents.new }
{
    let u = currents[p];
    let v = originals[p];
    if u == v {
        return;
    }
    move_by(originals, currents, from, to, u - v);
}
