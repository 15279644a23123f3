//! The verdicts of a replay.

/// What the replay of a stimulus says: that it is a local failure of the property, or the first reason why it is not. The
/// reasons come in the order: the first row, a constraint, the last step, the assumptions at earlier steps.
#[derive(Clone, Copy, Debug, PartialEq, Eq)]
pub enum Confirm {
    Local,
    /// The first row breaks the reset of this latch, which is the least such place in the list of latches.
    NotInitial { latch: u32 },
    /// This is the first step at which a constraint is 0.
    Constraint { step: u32 },
    /// The last step does not break the property.
    NotBad,
    /// This is the first step before the last that breaks an assumed property, and the least property that it breaks.
    Assumed { step: u32, prop: u32 },
}
