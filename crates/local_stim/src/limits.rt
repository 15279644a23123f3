//! The limits of a stimulus.

/// The most bytes that its text may have.
pub const MOST_BYTES: usize = 67_108_864;

/// The most input rows.
pub const MOST_ROWS: u32 = 1_000_000;
