// What the display shows of an outline that is not refused: the columns and rows that it can blacken (`window`), these rows counted one behind the other (`rows`), and both (`picture`).
#![tactic(auto)]

pub mod picture;
pub mod rows;
pub mod window;
