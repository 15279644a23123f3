//! How a sign-off goes about its work.

/// What the words of a sign-off ask for besides its files. None of it changes what a report may say of the task.
#[derive(Clone, Copy, Debug, PartialEq, Eq)]
pub struct Terms {
    /// The units that may be spent on one property, if there is a limit.
    pub limit: Option<u64>,
    /// The first failure of a property that is expected to hold ends the run, and what has no mark then is given up.
    pub fail_fast: bool,
    /// The report's text shows the journal.
    pub journal: bool,
}
