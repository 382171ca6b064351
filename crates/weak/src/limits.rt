// Document 01's limits of an outline, each named here alone.

// Points of an outline.
pub const MOST_POINTS: usize = 4096;

// Original and current coordinates of points either way, in units.
pub const MOST_COORDINATE: i32 = 65535;

// Currents either way of which no two are far enough apart for a point between them to be too steep.
pub const MOST_NEAR: i32 = 32767;
