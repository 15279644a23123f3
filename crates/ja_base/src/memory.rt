//! Want of memory, which is merged with no other answer.

ghost use Rattle.std.specs.Prelude.{◌≡◌};
ghost use Rattle.ja_base.specs.declared.memory.OrMemory.TheVariants as or_memory;

use std::alloc::{AllocError, AllocFailed};

/// There was no memory, or no place left in a list that is counted by a `u32`.
#[derive(Clone, Copy, Debug, PartialEq, Eq)]
pub struct Memory;

impl From<AllocError> for Memory {
    fn from(_e: AllocError) -> Memory {
        Memory
    }
}

impl<T: Drop> From<AllocFailed<T>> for Memory {
    fn from(_e: AllocFailed<T>) -> Memory {
        Memory
    }
}

/// A refusal of what was given, or want of memory.
#[derive(Clone, Copy, Debug, PartialEq, Eq, Drop)]
pub enum OrMemory<R> {
    Refused(R),
    Memory,
}

impl<R> From<Memory> for OrMemory<R> {
    ghost from_gives = { λ _ e. e ≡ or_memory.Memory };

    fn from(_e: Memory) -> OrMemory<R> {
        OrMemory::Memory
    }
}

impl<R> From<AllocError> for OrMemory<R> {
    ghost from_gives = { λ _ e. e ≡ or_memory.Memory };

    fn from(_e: AllocError) -> OrMemory<R> {
        OrMemory::Memory
    }
}

impl<R, T: Drop> From<AllocFailed<T>> for OrMemory<R> {
    ghost from_gives = { λ _ e. e ≡ or_memory.Memory };

    fn from(_e: AllocFailed<T>) -> OrMemory<R> {
        OrMemory::Memory
    }
}
