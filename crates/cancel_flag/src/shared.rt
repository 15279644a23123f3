//! The flag that is shared.

ghost use Rattle.std.specs.Prelude.{◌≡◌, IsTrue};

use crate::view::FlagView;
use std::sync::atomic::{AtomicBool, Ordering};

/// A word that any worker may raise, where the flag may be raised at all. It is never lowered.
#[derive(Debug, Drop)]
pub struct CancelFlag {
    word: AtomicBool,
    may: bool,
}

impl CancelFlag {
    pub fn new(may: bool) -> CancelFlag
        ensures { result.may ≡ may }
    {
        CancelFlag {
            word: AtomicBool::new(false),
            may,
        }
    }

    /// Whether it may be raised at all.
    pub fn may(&self) -> bool
        ensures { result ≡ self.now.may }
    {
        self.may
    }

    /// From now on each view finds it raised.
    pub fn raise(&self)
        requires { IsTrue self.now.may }
    {
        self.word.store(true, Ordering::SeqCst);
    }

    /// A view for one worker, which counts its own polls.
    pub fn view(&self) -> FlagView<'_>
        ensures may { result.may ≡ self.now.may }
        ensures raised { result.raised ≡ 0 }
    {
        FlagView::new(&self.word, self.may)
    }
}
