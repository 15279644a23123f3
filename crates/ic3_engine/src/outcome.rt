//! What comes of one turn of a descent.

use ic3_oblig::Obligation;
use local_stim::LocalFailure;

#[derive(Drop)]
pub(crate) enum Turn {
    /// The cube is blocked.
    Done,
    Failed(LocalFailure),
    /// A cube one level lower leads to it, and is to be blocked first.
    Lower(Obligation),
}

/// What a step that breaks the property gives.
#[derive(Drop)]
pub(crate) enum First {
    Failed(LocalFailure),
    Waits(Obligation),
}

/// What comes of one round at the top.
#[derive(Drop)]
pub(crate) enum Round {
    /// No row of the top breaks the property.
    Covered,
    Failed(LocalFailure),
    /// One cube of rows that do, and all that leads to it, is blocked.
    Blocked,
}

/// What comes of the search at one top.
#[derive(Drop)]
pub(crate) enum Ascent {
    Failed(LocalFailure),
    /// What is known covers the property.
    Covered,
    /// The top is one higher.
    Higher,
}

/// What comes of a look at what is known alone.
#[derive(Clone, Copy, Debug, PartialEq, Eq)]
pub(crate) enum Look {
    /// It covers the property.
    Covered,
    /// One cube of rows that break it is blocked for good.
    Blocked,
    /// Levels are needed, or there is a failure.
    Open,
}
