//! Where workers pass, so that a test can hold one of them.

/// A worker has drawn a property, or what it found of one has been answered.
#[derive(Clone, Copy, Debug, PartialEq, Eq)]
pub enum GatePoint {
    Drawn,
    Answered,
}

/// A gate tells nothing: no promise rests on it.
pub trait Gate {
    /// Returns when the caller may go on.
    fn pass(&self, point: GatePoint);
}
