// The properties of segments and edges (the Rust's `TopoFlags`).

// Rounded, a serif, already placed, on a neutral blue zone.
#[derive(Clone, Copy)]
pub struct Flags {
    pub round: bool,
    pub serif: bool,
    pub done: bool,
    pub neutral: bool,
}

// Flags of a segment or an edge that is nothing special.
pub const NORMAL: Flags = Flags {
    round: false,
    serif: false,
    done: false,
    neutral: false,
};
