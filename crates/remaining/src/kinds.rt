// What visits come to, and what the visit of an edge plans.
use axis::kinds::Mark;

// What the visits have come to beside the edges: the anchor or its absence, how many edges stems have passed over, and whether a position was given that no edge may have.
#[derive(Clone, Copy)]
pub struct Progress {
    pub anchor: Option<u16>,
    pub count: usize,
    pub beyond: bool,
}

// Which edges a loop over all of them places: Latin's, CJK's with a serif, or CJK's others.
#[derive(Clone, Copy)]
pub enum Round {
    Latin,
    Serifs,
    Others,
}

// How an edge is given its position: not at all, not done by it, done, or done and then held to its neighbours.
#[derive(Clone, Copy)]
pub enum Way {
    Stays,
    Placed,
    Fixed,
    Held,
}

// Where an edge goes and what gives that, how, and what the visits have come to behind it.
#[derive(Clone, Copy)]
pub struct Plan {
    pub pos: i64,
    pub mark: Mark,
    pub way: Way,
    pub next: Progress,
}
