//! Why candidates are not closed.

/// The first case that stands, for the least candidate for which one does; in `Closed::covers` the number is 0.
#[derive(Clone, Copy, Debug, PartialEq, Eq)]
pub enum NotClosed {
    /// A variable of the candidate has both signs, or is no latch's.
    Foreign(u32),
    /// Some initial row falsifies the candidate.
    Start(u32),
    /// The candidate has no proof.
    Missing(u32),
    /// This line of the candidate's proof, counted from 0, is refused at this hint.
    Line {
        candidate: u32,
        line: u32,
        hint: u32,
    },
    /// The lines are accepted, and something is left to refute.
    Left(u32),
}
