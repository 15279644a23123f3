//! Why bytes are no design.

use ja_base::{OrMemory, Var};
use thiserror::Error;

/// What there is more of than the limits allow.
#[derive(Clone, Copy, Debug, PartialEq, Eq)]
pub enum Large {
    /// More than 67,108,864 bytes.
    File,
    /// M above 500,000.
    Vars,
    /// More than 20,000 properties.
    Props,
    /// More than 500,000 outputs or constraints.
    Lines,
}

/// The first rule that the bytes break. Places are counted in bytes from 0.
#[derive(Clone, Copy, Debug, Error, PartialEq, Eq)]
pub enum ReadRefusal {
    #[error("no header, or one whose sizes disagree")]
    Header { at: usize },
    #[error("more than the limits allow")]
    TooLarge { what: Large },
    #[error("justice or fairness properties")]
    Liveness,
    #[error("a line or a delta that is not in form")]
    Line { at: usize },
    #[error("a literal or a reset out of range")]
    Range { at: usize },
    #[error("a variable that is defined a second time")]
    Twice { at: usize },
    #[error("a variable that is used and not defined")]
    Undefined { var: Var },
    #[error("a gate from which a cycle of gates can be reached")]
    Cycle { var: Var },
    #[error("a symbol line that is not in form")]
    Symbol { at: usize },
    #[error("the file ends too early")]
    Short { at: usize },
    #[error("a delta that breaks the order of a gate's literals")]
    Order { at: usize },
}

/// What is read, or the first refusal, or want of memory.
pub type Read<T> = Result<T, OrMemory<ReadRefusal>>;
