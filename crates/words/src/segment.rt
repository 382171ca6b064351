// Segments as words.

// How many words a segment is.
pub const SEGMENT_WORDS: usize = 15;

// The places of the fields among the words of a segment, behind its flags.
pub const DIR_PLACE: usize = 1;

pub const POS_PLACE: usize = 2;

pub const DELTA_PLACE: usize = 3;

pub const MIN_PLACE: usize = 4;

pub const MAX_PLACE: usize = 5;

pub const HEIGHT_PLACE: usize = 6;

pub const SCORE_PLACE: usize = 7;

pub const LEN_PLACE: usize = 8;

pub const LINK_PLACE: usize = 9;

pub const SERIF_PLACE: usize = 10;

pub const FIRST_PLACE: usize = 11;

pub const LAST_PLACE: usize = 12;

pub const EDGE_PLACE: usize = 13;

pub const NEXT_PLACE: usize = 14;
