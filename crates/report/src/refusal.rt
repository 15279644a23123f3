//! Why bytes are no report.

use thiserror::Error;

/// The first rule that bytes break. Lines are counted from 1.
#[derive(Clone, Copy, Debug, Error, PartialEq, Eq)]
pub enum ReportRefusal {
    #[error("another version")]
    Version,
    /// The end of the bytes, and a last line without LF, count as a line that is not in form.
    #[error("a line that is not in form")]
    Line { line: u64 },
}
