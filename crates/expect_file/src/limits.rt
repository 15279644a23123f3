//! The limit of an expectations file.

/// The most bytes that a text may have.
pub const MOST_BYTES: usize = 4_194_304;
