// The width rule, which stands in place of the Rust's `stem_width`.
ghost use Rattle.std.specs.Prelude.{◌≡◌, true, ◌≤◌, ◌<◌, length, get_or, pos};
ghost use Rattle.fixed.specs.Width.{standards_hold, rule_holds, Standards, away, Nearest, snapped, lifted, fitted_width};

use super::point::magnitude;

// Document 01's limits of standards: how many there are, how large one is, and how far from a width the one may be that it snaps to.
const MOST_STANDARDS: usize = 16;

const MOST_STANDARD: i32 = 16383;

const MOST_AWAY: u64 = 16;

// What a snapped width is at the least, unless it is 0.
const ONE_PIXEL: i32 = 64;

// What becomes of a stem's width: it is kept, or it snaps to the nearest of a list of standards.
#[derive(Clone, Copy)]
pub enum WidthRule {
    Keep,
    Snap,
}

// Whether a list of standards keeps its rule: no more than their limit, strictly rising, each 1 to its limit.
fn standards_hold(standards: &[i32]) -> bool
    ensures { result ≡ standards_hold standards.now }
{
    if MOST_STANDARDS < standards.len() {
        return false;
    }
    let mut last: i32 = 0;
    for &standard in standards {
        if standard <= last {
            return false;
        }
        if MOST_STANDARD < standard {
            return false;
        }
        last = standard;
    }
    true
}

// Whether a rule may be used with a list: Keep reads none.
pub fn rule_holds(rule: WidthRule, standards: &[i32]) -> bool
    ensures { result ≡ rule_holds rule standards.now }
{
    match rule {
        WidthRule::Keep => true,
        WidthRule::Snap => standards_hold(standards),
    }
}

// How far a standard is from the magnitude of a width.
fn distance(width: u64, standard: i32) -> u64
    requires { width ≤ 2147483648 }
    ensures { result ≡ away width standard }
{
    magnitude((standard as i64) - (width as i64))
}

// The place of the standard nearest to the magnitude of a width, the smaller on a tie.
fn nearest_place(standards: &[i32], width: u64) -> usize
    requires standards_nonzero { (0 < length standards.now) × (width ≤ 2147483648) }
    requires standards { Standards standards.now }
    ensures { (result < length standards.now) × Nearest standards.now width (get_or standards.now result (pos 0)) }
{
    let mut best = 0;
    for i in 1..standards.len() {
        let new = distance(width, standards[i]);
        let old = distance(width, standards[best]);
        if new < old {
            best = i;
        }
    }
    best
}

// The nearest standard with the width's sign where it is near enough, else the width itself.
fn snap(standards: &[i32], width: i32) -> i32
    requires { Standards standards.now }
    ensures { result ≡ snapped standards.now width }
{
    if standards.len() == 0 {
        return width;
    }
    let size = magnitude(width as i64);
    if size == 0 {
        return width;
    }
    let place = nearest_place(standards, size);
    let standard = standards[place];
    if MOST_AWAY < distance(size, standard) {
        return width;
    }
    if width < 0 {
        return 0 - standard;
    }
    standard
}

// A width below a pixel becomes a pixel, with the same sign, unless it is 0.
fn lift(width: i32) -> i32
    ensures { result ≡ lifted width }
{
    if ONE_PIXEL <= width {
        return width;
    }
    if width <= 0 - ONE_PIXEL {
        return width;
    }
    if 0 < width {
        return ONE_PIXEL;
    }
    if width < 0 {
        return 0 - ONE_PIXEL;
    }
    width
}

// The fitted width of a stem.
pub fn stem_width(rule: WidthRule, standards: &[i32], width: i32) -> i32
    requires { rule_holds rule standards.now ≡ true }
    ensures { result ≡ fitted_width rule standards.now width }
{
    match rule {
        WidthRule::Keep => width,
        WidthRule::Snap => lift(snap(standards, width)),
    }
}
