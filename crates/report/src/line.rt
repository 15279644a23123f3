//! Where reading stops.

use ja_base::OrMemory;

/// The first line that leaves the form begins where so many bytes are left.
#[derive(Clone, Copy, Debug, PartialEq, Eq)]
pub struct BadLine {
    pub left: usize,
}

/// What is read, or the first line that leaves the form, or want of memory.
pub type Read<T> = Result<T, OrMemory<BadLine>>;
