// Rooms for one record more than a call accepts: of more than that it is lent so many.
use axis::limits::{MOST_EDGES, MOST_SEGMENTS};
use words::edge::EDGE_WORDS;
use words::segment::SEGMENT_WORDS;

// The words of one segment and of one edge more than their limits.
pub const SEGMENTS_ROOM: usize = SEGMENT_WORDS * (MOST_SEGMENTS + 1);

pub const EDGES_ROOM: usize = EDGE_WORDS * (MOST_EDGES + 1);
