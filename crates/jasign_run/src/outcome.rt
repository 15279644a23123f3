//! What a run comes to.

use aiger_lines::ReadRefusal;
use expect_file::ExpectRefusal;
use local_stim::{Confirm, StimRefusal};
use report::Report;

/// Why there is no result.
#[derive(Clone, Copy, Debug, PartialEq, Eq)]
pub enum Stop {
    DesignRefused(ReadRefusal),
    StimulusRefused(StimRefusal),
    ExpectRefused(ExpectRefusal),
    /// The words are in no command's form.
    Usage,
    /// A file could not be read.
    Outside,
    /// Memory was wanting.
    Memory,
}

/// What a run comes to, before its text is written.
#[derive(Debug, Drop)]
pub enum Outcome {
    /// The stimulus of property `prop`, which has so many steps, was replayed.
    Replayed {
        verdict: Confirm,
        prop: u32,
        steps: u32,
    },
    /// All properties were signed off in one report.
    Signed(Report),
    /// The demonstration's design of so many latches was signed off.
    Demonstrated {
        size: u32,
        report: Report,
    },
    Stopped(Stop),
}

/// What a run answers.
#[derive(Debug, Drop)]
pub struct Ran {
    /// 0 to 6, as the command's table of statuses says.
    pub status: u8,
    /// The report of a sign-off or of a demonstration, also where its text could not be written.
    pub report: Option<Report>,
}
