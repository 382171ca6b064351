// The choices that records and calls are made of.

// Where a segment or an edge points to.
#[derive(Clone, Copy, Debug, PartialEq, Eq)]
pub enum Direction {
    None,
    Right,
    Left,
    Up,
    Down,
}

// The dimension of an axis.
#[derive(Clone, Copy, Debug, PartialEq, Eq)]
pub enum Dimension {
    Horizontal,
    Vertical,
}

// The group of scripts whose rules apply: the default, Latin's, or CJK's.
#[derive(Clone, Copy, Debug, PartialEq, Eq)]
pub enum Group {
    Default,
    Cjk,
}

// What last gave an edge its position (request #105; the last three are those of remaining edges).
#[derive(Clone, Copy, Debug, PartialEq, Eq)]
pub enum Mark {
    Nothing,
    BlueAnchor,
    Blue,
    Linked,
    Anchor,
    Stem,
    Adjusted,
    Bound,
    Serif,
    LowercaseM,
    Between,
    Spaced,
    RemainingAnchor,
}
