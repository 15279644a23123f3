//! Closed lists as their users see them.

ghost use Rattle.std.specs.Prelude.{◌≡◌, ◌<◌, length, Some, slice_get, slice_index_or, IfOk, OnOk, OnErr};
ghost use Rattle.std.proofs.lemmas.List.Elements.{All-contains};
ghost use Rattle.ja_base.specs.Budget.{sufficient_budget};
ghost use Rattle.ja_base.specs.ClauseSets.{AreDistinct, fresh, joined};
ghost use Rattle.ja_base.specs.Invariants.{Covers, latch_value};
ghost use Rattle.ja_base.specs.Literals.{SatisfiedBy};
ghost use Rattle.aig_model.specs.Task.{problem};

use crate::closed::Closed;
use crate::join::{copied, fresh, joined};
use ja_base::{Clause, ClauseList, ClosedSet, Memory};
use std::alloc::Global;

impl ClosedSet for Closed {
    ghost clauses = { λ c. c.clauses };

    ghost task = { λ c. problem c.task };

    ghost bound = { sufficient_budget };

    ghost covers = { λ t clauses p. Covers t.circuit clauses p };

    fn len(&self) -> u32 {
        self.clauses.len()
    }

    fn clause(&self, at: u32) -> &Clause {
        self.clauses.get(at)
    }

    fn join(&self, alloc: Global, other: &Self) -> Result<Self, Memory> {
        Ok(Closed {
            task: self.task.share()?,
            clauses: joined(alloc, &self.clauses, &other.clauses)?,
        })
    }

    fn extend(&mut self, alloc: Global, other: &Self) -> Result<ClauseList, Memory> {
        let added = fresh(alloc, &self.clauses, &other.clauses)?;
        let copy = copied(alloc, &added)?;
        self.clauses.append(copy)?;
        Ok(added)
    }

    fn copy(&self, alloc: Global) -> Result<Self, Memory> {
        Ok(Closed {
            task: self.task.share()?,
            clauses: copied(alloc, &self.clauses)?,
        })
    }

    ghost grows = { λ t few many p covered part state input values now meets constrained.
        covered state input values now
        (λ k d within. All-contains (SatisfiedBy (latch_value t.circuit.latches state)) many
        (slice_index_or few k d) meets (part k d within))
        constrained };
}
