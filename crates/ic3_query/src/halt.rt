//! How a call ends that found no answer.

ghost use Rattle.std.specs.Prelude.{◌≡◌};
ghost use Rattle.ic3_query.specs.declared.halt.Halt.TheVariants as halt;

use ja_base::Memory;
use std::alloc::{AllocError, AllocFailed};

/// One word for all endings without an answer, so that `?` hands each on.
#[derive(Clone, Copy, Debug, PartialEq, Eq)]
pub enum Halt {
    /// The meter's limit is reached.
    Spent,
    /// The flag was found raised.
    Stopped,
    Memory,
}

impl From<Memory> for Halt {
    ghost from_gives = { λ _ e. e ≡ halt.Memory };

    fn from(_e: Memory) -> Halt {
        Halt::Memory
    }
}

impl From<AllocError> for Halt {
    ghost from_gives = { λ _ e. e ≡ halt.Memory };

    fn from(_e: AllocError) -> Halt {
        Halt::Memory
    }
}

impl<T: Drop> From<AllocFailed<T>> for Halt {
    ghost from_gives = { λ _ e. e ≡ halt.Memory };

    fn from(_e: AllocFailed<T>) -> Halt {
        Halt::Memory
    }
}
