// The rows of edges, 12 words each: font position, original and fitted position, flags, direction, blue present, blue fitted, link, serif, first, last, mark.
use super::run::row;

// The stem pass beside an anchor, then the CJK stem.
pub fn stem_rows() {
    row(
        b"stem *  Latin, Keep, bottom to top, anchor at 0; 100 and 160 linked to each other: 130 and 190",
        b"112 3 | 0 0 0 4 0 0 0 -1 -1 0 0 0 | 0 100 100 0 0 0 0 2 -1 0 0 0 | 0 160 160 0 0 0 0 1 -1 0 0 0 | 1 0 0 0 0 0 0",
        b"0 0 0 3 | 0 0 0 4 0 0 0 -1 -1 0 0 0 | 0 100 130 4 0 0 0 2 -1 0 0 5 | 0 160 190 4 0 0 0 1 -1 0 0 5",
    );
    row(
        b"stem *  the same, 87 and 157 (a tie): 119 and 189",
        b"112 3 | 0 0 0 4 0 0 0 -1 -1 0 0 0 | 0 87 87 0 0 0 0 2 -1 0 0 0 | 0 157 157 0 0 0 0 1 -1 0 0 0 | 1 0 0 0 0 0 0",
        b"0 0 0 3 | 0 0 0 4 0 0 0 -1 -1 0 0 0 | 0 87 119 4 0 0 0 2 -1 0 0 5 | 0 157 189 4 0 0 0 1 -1 0 0 5",
    );
    row(
        b"stem *  CJK, Keep, vertical, not round, no STEM_ADJUST, delta 0, 40 and 80: 26 and 66",
        b"111 2 | 0 40 40 0 0 0 0 -1 -1 0 0 0 | 0 80 80 0 0 0 0 -1 -1 0 0 0 | 1 0 0 0 0 1 0",
        b"0 -14 2 | 0 40 26 0 0 0 0 -1 -1 0 0 5 | 0 80 66 0 0 0 0 -1 -1 0 0 5",
    );
    row(
        b"stem *  the same with STEM_ADJUST: 24 and 64",
        b"111 2 | 0 40 40 0 0 0 0 -1 -1 0 0 0 | 0 80 80 0 0 0 0 -1 -1 0 0 0 | 1 1 0 0 0 1 0",
        b"0 -16 2 | 0 40 24 0 0 0 0 -1 -1 0 0 5 | 0 80 64 0 0 0 0 -1 -1 0 0 5",
    );
}

// The lowercase m rule.
pub fn m_rows() {
    row(
        b"m *     6 Latin edges; 0, 2, 4 have opos 0, 100, 207, pos 0, 128, 270; 4 has no link: edge 4 at 256",
        b"113 6 | 0 0 0 0 0 0 0 -1 -1 0 0 0 | 0 0 0 0 0 0 0 -1 -1 0 0 0 | 0 100 128 0 0 0 0 -1 -1 0 0 0 | 0 0 0 0 0 0 0 -1 -1 0 0 0 | 0 207 270 0 0 0 0 -1 -1 0 0 0 | 0 0 0 0 0 0 0 -1 -1 0 0 0 | 0",
        b"0 6 | 0 0 0 0 0 0 0 -1 -1 0 0 0 | 0 0 0 0 0 0 0 -1 -1 0 0 0 | 0 100 128 0 0 0 0 -1 -1 0 0 0 | 0 0 0 0 0 0 0 -1 -1 0 0 0 | 0 207 256 4 0 0 0 -1 -1 0 0 9 | 0 0 0 0 0 0 0 -1 -1 0 0 0",
    );
    row(
        b"m       the same with opos 208 (span 8): nothing moves",
        b"113 6 | 0 0 0 0 0 0 0 -1 -1 0 0 0 | 0 0 0 0 0 0 0 -1 -1 0 0 0 | 0 100 128 0 0 0 0 -1 -1 0 0 0 | 0 0 0 0 0 0 0 -1 -1 0 0 0 | 0 208 270 0 0 0 0 -1 -1 0 0 0 | 0 0 0 0 0 0 0 -1 -1 0 0 0 | 0",
        b"0 6 | 0 0 0 0 0 0 0 -1 -1 0 0 0 | 0 0 0 0 0 0 0 -1 -1 0 0 0 | 0 100 128 0 0 0 0 -1 -1 0 0 0 | 0 0 0 0 0 0 0 -1 -1 0 0 0 | 0 208 270 0 0 0 0 -1 -1 0 0 0 | 0 0 0 0 0 0 0 -1 -1 0 0 0",
    );
}

// The bound of a link.
pub fn bound_rows() {
    row(
        b"bound   adjust_link, order test met, link's position 16 from the previous edge's: stays",
        b"109 3 | 0 0 64 0 0 0 0 -1 -1 0 0 0 | 0 0 0 0 0 0 0 2 -1 0 0 0 | 0 0 80 0 0 0 0 -1 -1 0 0 0 | 1 0 0",
        b"0 3 | 0 0 64 0 0 0 0 -1 -1 0 0 0 | 0 0 0 0 0 0 0 2 -1 0 0 0 | 0 0 80 0 0 0 0 -1 -1 0 0 0",
    );
    row(
        b"bound   17 from it: moves",
        b"109 3 | 0 0 64 0 0 0 0 -1 -1 0 0 0 | 0 0 0 0 0 0 0 2 -1 0 0 0 | 0 0 81 0 0 0 0 -1 -1 0 0 0 | 1 0 0",
        b"0 3 | 0 0 64 0 0 0 0 -1 -1 0 0 0 | 0 0 64 0 0 0 0 2 -1 0 0 7 | 0 0 81 0 0 0 0 -1 -1 0 0 0",
    );
}
