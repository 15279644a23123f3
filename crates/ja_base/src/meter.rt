//! The meter of a budget.

ghost use Rattle.std.specs.Prelude.{◌≡◌, ◌+◌, ◌<◌, ◌≤◌, ◌↔◌, Some, IsTrue, IsSome, IsErr, IfSome, OnOk, OnErr};
ghost use Rattle.std.specs.Option.{ForSome};
ghost use Rattle.ja_base.specs.Meter.{next_count};

use std::marker::Model;

/// The limit is reached.
#[derive(Clone, Copy, Debug, PartialEq, Eq)]
pub struct Spent;

/// How many units were spent, where the limit is reached. A meter alone makes it.
#[derive(Clone, Copy, Debug, PartialEq, Eq)]
pub struct SpentNote(u64);

impl Model for SpentNote {
    ghost use Rattle.std.specs.Prelude.{ℕ};

    ghost Value = { ℕ };

    ghost view = { λ n. n.0 };

    ghost inverse = { λ n. record { 0 = n } };
}

impl SpentNote {
    pub fn units(&self) -> u64
        ensures { result ≡ self.now }
    {
        self.0
    }
}

/// Units that were spent, and ticks that were refused since the limit is reached.
#[derive(Debug, Drop)]
pub struct Meter {
    limit: Option<u64>,
    spent: u64,
    refused: u64,
    pub ghost within: { ForSome limit (λ n. spent ≤ n) },
    pub ghost at_limit: { 0 < refused → limit ≡ Some spent },
}

impl Meter {
    pub fn new(limit: Option<u64>) -> Meter
        ensures limit { result.limit ≡ limit }
        ensures spent { result.spent ≡ 0 }
        ensures refused { result.refused ≡ 0 }
    {
        Meter {
            limit,
            spent: 0,
            refused: 0,
        }
    }

    /// Spends one unit, or refuses where the limit is reached. Each count stays at its greatest value once it is there.
    pub fn tick(&mut self) -> Result<(), Spent>
        ensures exact { IsErr result ↔ (self.old.limit ≡ Some self.old.spent) }
        ensures limit { self.new.limit ≡ self.old.limit }
        ensures ok { OnOk result
            ((self.new.spent ≡ next_count self.old.spent) × (self.new.refused ≡ self.old.refused)) }
        ensures err { OnErr result
            ((self.new.spent ≡ self.old.spent) × (self.new.refused ≡ next_count self.old.refused)) }
        ensures one { self.new.spent + self.new.refused ≤ self.old.spent + self.old.refused + 1 }
        ensures spent_later { self.old.spent ≤ self.new.spent }
        ensures refused_later { self.old.refused ≤ self.new.refused }
    {
        if self.is_at_limit() {
            self.refused = self.refused.saturating_add(1);
            return Err(Spent);
        }
        self.spent = self.spent.saturating_add(1);
        Ok(())
    }

    pub fn note(&self) -> Option<SpentNote>
        ensures exact { IsSome result ↔ (self.now.limit ≡ Some self.now.spent) }
        ensures units { IfSome result (λ note. note ≡ self.now.spent) }
    {
        if self.is_at_limit() {
            Some(SpentNote(self.spent))
        } else {
            None
        }
    }

    fn is_at_limit(&self) -> bool
        ensures { IsTrue result ↔ (self.now.limit ≡ Some self.now.spent) }
    {
        self.limit == Some(self.spent)
    }
}
