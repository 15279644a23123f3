//! One kept clause.

ghost use Rattle.std.specs.Prelude.{◌≡◌};
ghost use Rattle.ic3_frames.specs.Levels.{is_blocked_by, takes_place};
ghost use Rattle.ic3_frames.specs.Marks.{IsMark};

use crate::mark::{is_part, mark_of};
use ja_base::Clause;
use std::marker::Model;

/// A clause with the highest level at which it stands, and its signature.
#[derive(Debug, Drop)]
pub(crate) struct Kept {
    clause: Clause,
    level: u32,
    mark: u64,
}

impl Model for Kept {
    ghost use Rattle.ic3_frames.specs.Levels.{Entry};
    ghost use Rattle.ic3_frames.specs.Marks.{IsMark};

    ghost Value = { Entry };

    ghost view = { λ a. record { clause = a.clause; level = a.level } };

    ghost invariant = { λ a. IsMark a.clause a.mark };
}

impl Kept {
    pub(crate) fn new(clause: Clause, level: u32) -> Kept
        ensures { result ≡ record { clause = clause; level = level } }
    {
        let mark = mark_of(clause.lits());
        Kept {
            clause,
            level,
            mark,
        }
    }

    pub(crate) fn clause(&self) -> &Clause
        ensures { result.now ≡ self.now.clause }
    {
        &self.clause
    }

    pub(crate) fn level(&self) -> u32
        ensures { result ≡ self.now.level }
    {
        self.level
    }

    /// A clause of a lower level is passed over before anything is compared.
    pub(crate) fn blocks(&self, level: u32, clause: &Clause, mark: u64) -> bool
        requires { IsMark clause.now mark }
        ensures { result ≡ is_blocked_by level clause.now self.now }
    {
        level <= self.level && is_part(&self.clause, self.mark, clause, mark)
    }

    pub(crate) fn takes_place(&self, other: &Kept) -> bool
        ensures { result ≡ takes_place self.now other.now }
    {
        other.level <= self.level && is_part(&self.clause, self.mark, &other.clause, other.mark)
    }

    pub(crate) fn move_to(&mut self, level: u32)
        ensures { self.new ≡ record { clause = self.old.clause; level = level } }
    {
        self.level = level;
    }
}
