//! The sizes that are taken.

/// The most bytes of a file.
pub const MOST_BYTES: usize = 67_108_864;

/// The greatest M.
pub const MOST_VARS: u64 = 500_000;

pub const MOST_PROPERTIES: u64 = 20_000;

/// The most outputs, and the most constraints.
pub const MOST_LINES: u64 = 500_000;
