//! What shows that a property fails.

ghost use Rattle.std.specs.Prelude.{◌≡◌, ℕ};
ghost use Rattle.ja_base.specs.Circuit.{Problem};
ghost use Rattle.ja_base.specs.Runs.{Trace, IsLocalFailure};

/// A local failure of a property: a value of this type stands for the proof of it.
pub trait Shown: Sized + Drop {
    /// The task of which the property fails.
    ghost task: { Self → Problem };

    /// The property, by number.
    ghost property: { Self → ℕ };

    /// The stimulus that breaks it at its last step.
    ghost stimulus: { Self → Trace };

    fn prop(&self) -> u32
        ensures value { result ≡ property self.now }
        ensures fails { IsLocalFailure (task self.now) (property self.now) (stimulus self.now) };
}
