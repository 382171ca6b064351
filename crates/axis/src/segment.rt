// Segments, and the table of 512 of them.
ghost use Rattle.std.specs.Prelude.{◌≡◌};
ghost use Rattle.axis.specs.Segment.{empty_segments};

use super::flags::{Flags, NORMAL};
use super::kinds::Direction;
use super::limits::MOST_SEGMENTS;

// Points in a row with one dominant direction: its position, how it is paired with others, its point indices, its edge and the next segment there.
#[derive(Clone, Copy)]
pub struct Segment {
    pub flags: Flags,
    pub dir: Direction,
    pub pos: i16,
    pub delta: i16,
    pub min_coord: i16,
    pub max_coord: i16,
    pub height: i16,
    pub score: i32,
    pub len: i32,
    pub link: Option<u16>,
    pub serif: Option<u16>,
    pub first: u16,
    pub last: u16,
    pub edge: Option<u16>,
    pub next: Option<u16>,
}

// The segments of an axis are the first `len` of the working table.
#[derive(Clone, Copy)]
pub struct Segments {
    pub segments: [Segment; MOST_SEGMENTS],
    pub len: usize,
}

// The segment of an unused place.
const EMPTY_SEGMENT: Segment = Segment {
    flags: NORMAL,
    dir: Direction::None,
    pos: 0,
    delta: 0,
    min_coord: 0,
    max_coord: 0,
    height: 0,
    score: 0,
    len: 0,
    link: None,
    serif: None,
    first: 0,
    last: 0,
    edge: None,
    next: None,
};

// A table without segments.
pub fn empty_segments() -> Segments
    ensures { result ≡ empty_segments }
{
    Segments {
        segments: [EMPTY_SEGMENT; MOST_SEGMENTS],
        len: 0,
    }
}
