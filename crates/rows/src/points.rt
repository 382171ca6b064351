// The rows of weak points: originals, currents, touch marks and contour ends, and the currents at the end.
use super::run::row;

// Runs them.
pub fn weak_rows() {
    row(
        b"weak *  references 0 to 0 and 3 to 64; originals 1, 2: 21, 43",
        b"3 | 4 0 1 2 3 | 4 0 0 0 64 | 4 1 0 0 1 | 1 3",
        b"0 | 4 0 21 43 64",
    );
    row(
        b"weak *  references 0 to 0 and 3 to -64; originals 1, 2: -21, -43",
        b"3 | 4 0 1 2 3 | 4 0 0 0 -64 | 4 1 0 0 1 | 1 3",
        b"0 | 4 0 -21 -43 -64",
    );
    row(
        b"weak *  references 0 to 0 and 2 to 1; original 1: 1",
        b"3 | 3 0 1 2 | 3 0 0 1 | 3 1 0 1 | 1 2",
        b"0 | 3 0 1 1",
    );
    row(
        b"weak *  then 2 to -1: -1",
        b"3 | 3 0 1 2 | 3 0 0 -1 | 3 1 0 1 | 1 2",
        b"0 | 3 0 -1 -1",
    );
    row(
        b"weak *  references 0 to 0 and 3 to 64; originals -5, 10: -5, 71",
        b"3 | 4 0 -5 10 3 | 4 0 0 0 64 | 4 1 0 0 1 | 1 3",
        b"0 | 4 0 -5 71 64",
    );
    row(
        b"weak *  originals 0, 10, 20; currents 0, 99, 20; first touched: 0, 99, 20",
        b"3 | 3 0 10 20 | 3 0 99 20 | 3 1 0 0 | 1 2",
        b"0 | 3 0 99 20",
    );
    row(
        b"weak *  the same, currents 5, 99, 20: 5, 15, 25",
        b"3 | 3 0 10 20 | 3 5 99 20 | 3 1 0 0 | 1 2",
        b"0 | 3 5 15 25",
    );
    row(
        b"weak    coordinate 65,535: accepted",
        b"3 | 1 65535 | 1 65535 | 1 1 | 1 0",
        b"0 | 1 65535",
    );
    row(
        b"weak    coordinate 65,536: refusal 4",
        b"3 | 1 65536 | 1 65536 | 1 1 | 1 0",
        b"4 | 1 65536",
    );
}
