//! What a search works on.

ghost use Rattle.std.specs.Prelude.{◌≡◌};
ghost use Rattle.sat_cdcl.specs.Assumptions.{IsRetreated};

use refute_check::Lines;

/// The lines so far; from which place on other literals than the assumed ones were decided, if any were; and how many of the
/// assumed ones are known to be true.
#[derive(Debug, Drop)]
pub(crate) struct Query {
    pub(crate) lines: Lines,
    pub(crate) free: Option<u32>,
    pub(crate) cursor: usize,
}

impl Query {
    /// Only the first places of the trail are left, so many.
    pub(crate) fn retreat(&mut self, to: u32)
        ensures lines { self.new.lines ≡ self.old.lines }
        ensures retreats { IsRetreated to self.old.free self.old.cursor
            self.new.free self.new.cursor }
    {
        if let Some(free) = self.free {
            if free < to {
                return;
            }
        }
        self.free = None;
        self.cursor = 0;
    }
}
