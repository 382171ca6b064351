// A pair of edges: its widths, whether it is a stem, and whether it is gone.
ghost use Rattle.std.specs.Prelude.{◌≡◌, ◌||◌, ◌<◌};
ghost use Rattle.signed.specs.Range.{Between};
ghost use Rattle.axis.specs.Limits.{most_edges, most_pos};
ghost use Rattle.axis.specs.Link.{links_to};
ghost use Rattle.gaps.specs.Gaps.{row_from, gone};
ghost use Rattle.gaps.specs.Steps.{Placed, pair_of, named_of};

use axis::edge::Edge;

// The two edges, or none, and how far the second is behind the first, before fitting and after it.
#[derive(Clone, Copy)]
pub struct Pair {
    pub first: Option<u16>,
    pub second: Option<u16>,
    pub before: i32,
    pub after: i32,
}

// No pair.
pub const NO_PAIR: Pair = Pair {
    first: None,
    second: None,
    before: 0,
    after: 0,
};

// The pair from edge i to edge j.
pub fn pair_of(i: usize, first: Edge, j: usize, second: Edge) -> Pair
    requires { Placed i first × Placed j second }
    ensures { result ≡ pair_of i first j second }
{
    Pair {
        first: Some(i as u16),
        second: Some(j as u16),
        before: second.opos - first.opos,
        after: second.pos - first.pos,
    }
}

// Whether the pair from edge i to edge j is a stem, by their links.
pub fn is_stem(i: usize, first: Option<u16>, j: usize, second: Option<u16>) -> bool
    requires { (i < most_edges) × (j < most_edges) }
    ensures { result ≡ (links_to first j || links_to second i) }
{
    if first == Some(j as u16) {
        return true;
    }
    second == Some(i as u16)
}

// The first pixel row whose centre is not below p.
fn row_from(p: i32) -> i32
    requires { Between most_pos most_pos p }
    ensures { result ≡ row_from p }
{
    (p + 31) >> 6
}

// Whether a pair of some width before, from p to q now, is gone: it is turned, or has no pixel row though it was open.
pub fn is_gone(before: i32, p: i32, q: i32) -> bool
    requires { Between most_pos most_pos p × Between most_pos most_pos q }
    ensures { result ≡ gone before p q }
{
    if q < p {
        return true;
    }
    if 0 < before {
        return row_from(q) <= row_from(p);
    }
    false
}

// The pair that is named: the one before, or where there is none the new one.
pub fn named(old: Pair, new: Pair) -> Pair
    ensures { result ≡ named_of old new }
{
    let from = old.first;
    if from.is_some() {
        return old;
    }
    new
}
