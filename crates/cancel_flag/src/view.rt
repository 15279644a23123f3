//! The flag as one worker sees it.

ghost use Rattle.std.specs.Prelude.{◌≡◌, ◌≤◌, Bool, IsTrue};
ghost use Rattle.std.specs.Bool.{OnTrue};
ghost use Rattle.ja_outside.specs.Faults.{Rose};

use ja_outside::Flag;
use std::sync::atomic::{AtomicBool, Ordering};

/// It may rise exactly where the flag may be raised.
#[derive(Drop)]
pub struct FlagView<'a> {
    word: &'a AtomicBool,
    may: bool,
    /// How many polls found the flag raised; the number stays at its greatest value.
    raised: u64,
}

impl<'a> FlagView<'a> {
    pub(crate) fn new(word: &'a AtomicBool, may: bool) -> FlagView<'a>
        ensures may { result.may ≡ may }
        ensures raised { result.raised ≡ 0 }
    {
        FlagView {
            word,
            may,
            raised: 0,
        }
    }
}

impl<'a> Flag for FlagView<'a> {
    ghost raised = { λ v. v.raised };

    ghost may_rise = { λ v. v.may };

    fn poll(&mut self) -> bool {
        let is_raised = self.may && self.word.load(Ordering::SeqCst);
        if is_raised {
            self.raised = self.raised.saturating_add(1);
        }
        is_raised
    }
}
