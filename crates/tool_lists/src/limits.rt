// What an answer can carry.
use weak::limits::MOST_POINTS;

// The words of the longest answer, that of a path: the answer, a count and nine words for each lone point off the curve, a move, a curve and a close.
pub const LONGEST: usize = 2 + 9 * MOST_POINTS;
