// What a job can carry, each number named here alone.

// Numbers of a list.
pub const MOST_NUMBERS: usize = 8191;

// Words of a job: the longest has its call, full tables of segments and edges, nine numbers, and seven lists of numbers, each behind its count.
pub const MOST_WORDS: usize = 1 + 7681 + 1537 + 10 + 7 * (1 + MOST_NUMBERS);
