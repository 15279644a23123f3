//! Why a text is no stimulus.

use thiserror::Error;

/// The first rule that the text of a stimulus breaks. Lines are counted from 1.
#[derive(Clone, Copy, Debug, Error, PartialEq, Eq)]
pub enum StimRefusal {
    #[error("a line that is not in form")]
    Line { line: u64 },
    #[error("a property that the design does not have")]
    Unknown { line: u64 },
    #[error("a row of another length")]
    Width { line: u64 },
    #[error("the text ends too early")]
    Short { line: u64 },
    #[error("more than the limits allow")]
    TooLarge,
}
