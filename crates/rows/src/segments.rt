// The row of segments, 15 words each: flags, direction, position, delta, least and largest coordinate, height, score, len, link, serif, first, last, edge, next.
use super::run::row;

// CJK linking.
pub fn link_row() {
    row(
        b"link *  positions 0 and 100, both 0 to 200 wide: linked to each other, score 100, len 200",
        b"4 2 | 0 3 0 0 0 200 0 32000 0 -1 -1 0 0 -1 -1 | 0 4 100 0 0 200 0 32000 0 -1 -1 0 0 -1 -1 | 3 1000 65536",
        b"0 2 | 0 3 0 0 0 200 0 100 200 1 -1 0 0 -1 -1 | 0 4 100 0 0 200 0 100 200 0 -1 0 0 -1 -1",
    );
}
