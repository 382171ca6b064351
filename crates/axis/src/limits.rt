// Document 01's limits of segments and edges and of the numbers passed beside them, each named here alone.

// Segments of an axis.
pub const MOST_SEGMENTS: usize = 512;

// Edges of an axis.
pub const MOST_EDGES: usize = 128;

// `opos`, a blue's `fitted` and building's product, in units.
pub const LEAST_UNITS: i32 = -65535;

pub const MOST_UNITS: i32 = 65535;

// The delta passed to the CJK stem, in units.
pub const LEAST_PASSED: i32 = -16383;

pub const MOST_PASSED: i32 = 16383;

// `pos` of an edge.
pub const LEAST_POS: i32 = -16777216;

pub const MOST_POS: i32 = 16777216;

// A segment's score and len, and the three build thresholds.
pub const MOST_SCORE: i32 = 65535;

// Units per em.
pub const LEAST_UNITS_PER_EM: i32 = 16;

pub const MOST_UNITS_PER_EM: i32 = 16384;

// Scale, in 16.16.
pub const LEAST_SCALE: i32 = 1;

pub const MOST_SCALE: i32 = 16777216;
