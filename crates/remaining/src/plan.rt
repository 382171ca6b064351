// Where an edge goes, by the edges that decide it.
ghost use Rattle.std.specs.Prelude.{◌≡◌, ◌<◌};
ghost use Rattle.signed.specs.Range.{Between};
ghost use Rattle.axis.specs.Limits.{most_edges, most_units, most_pos};
ghost use Rattle.axis.specs.Refusals.{within};
ghost use Rattle.place.specs.Steps.{InReach, most_reach};
ghost use Rattle.remaining.specs.Plan.{is_close, is_near, serif_plan, anchor_plan, half_floor, spaced_pos, spaced_plan, between_pos, latin_between, cjk_between, stays_plan, one_less, as_beyond};

use super::kinds::{Plan, Progress, Way};
use axis::edge::Edge;
use axis::kinds::Mark;
use axis::limits::{LEAST_POS, MOST_POS};
use fixed::pixel::pix_round;
use fixed::point::magnitude;
use fixed_ratio::ratio::fixed_mul_div;
use place::place::serif_edge;

// Whether an original position is near enough to that of its base edge for Latin.
fn is_close(opos: i32, base: i32) -> bool
    requires { Between most_units most_units opos × Between most_units most_units base }
    ensures { result ≡ is_close opos base }
{
    let apart = opos - base;
    magnitude(apart as i64) < 80
}

// Whether a serif is near enough to its base edge for Latin.
pub fn is_near(edge: Edge, base: Edge) -> bool
    requires { InReach edge × InReach base }
    ensures { result ≡ is_near edge base }
{
    is_close(edge.opos, base.opos)
}

// By the edge whose serif it is.
pub fn serif_plan(base: Edge, edge: Edge, way: Way, past: Progress) -> Plan
    requires { InReach base × InReach edge }
    ensures { result ≡ serif_plan base edge way past }
{
    let moved = serif_edge(base, edge);
    Plan {
        pos: i64::from(moved.pos),
        mark: Mark::Serif,
        way,
        next: past,
    }
}

// Where there is no anchor yet, Latin's edge i becomes it, on a whole pixel.
pub fn anchor_plan(edge: Edge, i: usize, past: Progress) -> Plan
    requires { InReach edge × (i < most_edges) }
    ensures { result ≡ anchor_plan edge i past }
{
    let pos = pix_round(edge.opos);
    Plan {
        pos: i64::from(pos),
        mark: Mark::RemainingAnchor,
        way: Way::Held,
        next: Progress {
            anchor: Some(i as u16),
            count: past.count,
            beyond: past.beyond,
        },
    }
}

// The largest multiple of 32, half a pixel, not above x.
fn half_floor(x: i32) -> i32
    ensures { result ≡ half_floor x }
{
    (x >> 5) * 32
}

// The distance from the anchor and 16, down to half a pixel.
fn spaced_pos(anchor_pos: i32, anchor_opos: i32, opos: i32) -> i32
    requires { Between most_reach most_reach anchor_pos × Between most_units most_units anchor_opos × Between most_units most_units opos }
    ensures { result ≡ spaced_pos anchor_pos anchor_opos opos }
{
    let apart = half_floor(opos - anchor_opos + 16);
    anchor_pos + apart
}

// By the anchor.
pub fn spaced_plan(anchor: Edge, edge: Edge, past: Progress) -> Plan
    requires { InReach anchor × InReach edge }
    ensures { result ≡ spaced_plan anchor edge past }
{
    let pos = spaced_pos(anchor.pos, anchor.opos, edge.opos);
    Plan {
        pos: i64::from(pos),
        mark: Mark::Spaced,
        way: Way::Held,
        next: past,
    }
}

// As far between the positions of two edges as it is between the two; two at one place have the first one's.
fn between_pos(at: i32, before_at: i32, before_pos: i32, after_at: i32, after_pos: i32) -> i64
    requires between { Between most_units most_units at × Between most_units most_units before_at × Between most_units most_units after_at }
    requires between_2 { Between most_reach most_reach before_pos × Between most_reach most_reach after_pos }
    ensures { result ≡ between_pos at before_at before_pos after_at after_pos }
{
    if after_at == before_at {
        return i64::from(before_pos);
    }
    let part = fixed_mul_div(at - before_at, after_pos - before_pos, after_at - before_at);
    i64::from(before_pos) + part
}

// Latin's edge between two that are done, by its original position.
pub fn latin_between(before: Edge, after: Edge, edge: Edge, past: Progress) -> Plan
    requires { InReach before × InReach after × InReach edge }
    ensures { result ≡ latin_between before after edge past }
{
    let pos = between_pos(edge.opos, before.opos, before.pos, after.opos, after.pos);
    Plan {
        pos,
        mark: Mark::Between,
        way: Way::Held,
        next: past,
    }
}

// A font position as a number of 32 bits.
fn font_pos(edge: Edge) -> i32
    ensures { (result ≡ edge.fpos) × Between most_units most_units result }
{
    edge.fpos as i32
}

// CJK's edge between two that are done, by its font position.
pub fn cjk_between(before: Edge, after: Edge, edge: Edge, past: Progress) -> Plan
    requires { InReach before × InReach after × InReach edge }
    ensures { result ≡ cjk_between before after edge past }
{
    let at = font_pos(edge);
    let before_at = font_pos(before);
    let after_at = font_pos(after);
    let pos = between_pos(at, before_at, before.pos, after_at, after.pos);
    Plan {
        pos,
        mark: Mark::Between,
        way: Way::Placed,
        next: past,
    }
}

// An edge that stays where it is.
pub fn stays_plan(edge: Edge, past: Progress) -> Plan
    ensures { result ≡ stays_plan edge past }
{
    Plan {
        pos: i64::from(edge.pos),
        mark: Mark::Nothing,
        way: Way::Stays,
        next: past,
    }
}

// One of the edges that stems have passed over is placed.
pub fn one_less(past: Progress) -> Progress
    ensures { result ≡ one_less past }
{
    let anchor = past.anchor;
    let mut count = past.count;
    if 0 < count {
        count = count - 1;
    }
    Progress {
        anchor,
        count,
        beyond: past.beyond,
    }
}

// A position was given that no edge may have.
pub fn as_beyond(past: Progress) -> Progress
    ensures { result ≡ as_beyond past }
{
    let anchor = past.anchor;
    Progress {
        anchor,
        count: past.count,
        beyond: true,
    }
}

// Whether an edge may have a position.
pub fn pos_holds(pos: i64) -> bool
    ensures { result ≡ within most_pos pos }
{
    if (LEAST_POS as i64) <= pos {
        return pos <= (MOST_POS as i64);
    }
    false
}
