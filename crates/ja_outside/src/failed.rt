//! The one way in which a call on the outside fails.

/// The outside failed. Its object counts these faults.
#[derive(Clone, Copy, Debug, PartialEq, Eq)]
pub struct Failed;
