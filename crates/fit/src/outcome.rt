// What fitting the edges of an axis comes to.
ghost use Rattle.std.specs.Prelude.{◌≡◌};
ghost use Rattle.fit.specs.Edges.{is_left};

use gaps::find::Gaps;

// How many words are told of it.
pub const TOLD_WORDS: usize = 9;

// How many edges stems have passed over, the anchor or its absence, and what the guard has found.
#[derive(Clone, Copy)]
pub struct FittedEdges {
    pub count: usize,
    pub anchor: Option<u16>,
    pub gaps: Gaps,
}

// Whether edges are left behind stems, as the Rust asks (`hint_edges`): some were passed over, or there is no anchor.
pub fn is_left(count: usize, anchor: Option<u16>) -> bool
    ensures { result ≡ is_left count anchor }
{
    if 0 < count {
        return true;
    }
    anchor.is_none()
}
