//! What is known of a clause.

/// Under the literals that are known to be true.
#[derive(Clone, Copy, Debug, PartialEq, Eq)]
pub enum Found {
    /// Each literal is false.
    False,
    /// This one has no value, and each other is false.
    Forces(u32),
    Other,
}
