//! Why a text says no expectations.

use ja_base::OrMemory;
use thiserror::Error;

/// The first rule that the text of an expectations file breaks. Lines are counted from 1.
#[derive(Clone, Copy, Debug, Error, PartialEq, Eq)]
pub enum ExpectRefusal {
    #[error("a line that is not in form")]
    Line { line: u64 },
    #[error("a property that the design does not have")]
    Unknown { line: u64 },
    #[error("a property that an earlier line names")]
    Twice { line: u64 },
    #[error("more than the limits allow")]
    TooLarge,
}

/// What is read, or the first refusal, or want of memory.
pub type Read<T> = Result<T, OrMemory<ExpectRefusal>>;
