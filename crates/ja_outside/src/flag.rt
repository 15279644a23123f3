//! A flag that is raised from outside, as for a stop.

ghost use Rattle.std.specs.Prelude.{◌≡◌, ℕ, ◌≤◌, Bool, IsTrue};
ghost use Rattle.std.specs.Bool.{OnTrue};
ghost use Rattle.ja_outside.specs.Faults.{Rose};

pub trait Flag {
    /// How many polls were answered true.
    ghost raised: { Self → ℕ };

    /// Whether it may be raised at all. No call changes it.
    ghost may_rise: { Self → Bool };

    /// Whether the flag is raised now.
    fn poll(&mut self) -> bool
        ensures kept { may_rise self.new ≡ may_rise self.old }
        ensures may { OnTrue result (IsTrue (may_rise self.new)) }
        ensures counted { OnTrue result (Rose (raised self.old) (raised self.new)) }
        ensures later { raised self.old ≤ raised self.new };
}

/// It is never raised.
#[derive(Clone, Copy, Debug, PartialEq, Eq)]
pub struct NoFlag;

impl Flag for NoFlag {
    ghost use Rattle.std.specs.Prelude.{false};

    ghost raised = { λ _. 0 };

    ghost may_rise = { λ _. false };

    fn poll(&mut self) -> bool
        ensures { result ≡ false }
    {
        false
    }
}
