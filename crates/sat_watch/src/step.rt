//! What propagation leaves.

/// Where it ends.
#[derive(Clone, Copy, Debug, PartialEq, Eq)]
pub enum Step {
    /// No clause is false, or forces a literal that has no value.
    Quiet,
    /// The clause of this slot is false.
    Conflict(u32),
}
