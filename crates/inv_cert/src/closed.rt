//! Lists that are closed.

ghost use Rattle.std.specs.Prelude.{◌≡◌, ◌+◌, ◌<◌, [], ◌∷◌, ◌++◌, length, Some, None, All, IfOk, OnOk, OnErr};
ghost use Rattle.ja_base.specs.Answers.{IfRefused};
ghost use Rattle.ja_base.specs.Clauses.{IsBelow};
ghost use Rattle.ja_base.specs.ClauseSets.{fresh, joined};
ghost use Rattle.ja_base.specs.Invariants.{Covers};
ghost use Rattle.aig_model.specs.Netlist.{circuit};
ghost use Rattle.aig_model.specs.Task.{problem};
ghost use Rattle.inv_cert.specs.Closed.{IsClosed};
ghost use Rattle.inv_cert.specs.Refusals.{AreTaken, IsFirstRefusal, cover_refusal};

use crate::check::accept_all;
use crate::join::{fresh, joined};
use crate::load::cover_checker;
use crate::loaded::StepChecker;
use crate::not_closed::NotClosed;
use crate::proof::take_proof;
use aig_model::Task;
use ja_base::{ClauseList, Memory, OrMemory};
use ja_project::Coded;
use refute_check::{Proofs, Refuted};
use std::alloc::Global;
use std::marker::Model;

/// Clauses that are closed for a task.
#[derive(Drop)]
pub struct Closed {
    pub(crate) task: Task,
    pub(crate) clauses: ClauseList,
}

impl Model for Closed {
    ghost use Rattle.aig_model.specs.Task.{problem};
    ghost use Rattle.inv_cert.specs.Closed.{ClosedList, IsClosed};

    ghost Value = { ClosedList };

    ghost view = { λ a. record { task = a.task; clauses = a.clauses } };

    ghost invariant = { λ a. IsClosed (problem a.task) a.clauses };
}

impl Closed {
    /// The list of no clause.
    pub fn empty(alloc: Global, task: &Task) -> Result<Closed, Memory>
        ensures { IfOk result (λ closed. closed ≡ record { task = task.now; clauses = [] }) }
    {
        Ok(Closed {
            task: task.share()?,
            clauses: ClauseList::new(alloc),
        })
    }

    /// The list, and behind it the candidates that it does not have, where each has a proof that is accepted: proof i is that
    /// of candidate i, and further proofs are passed over. The task of the result is that of `coded`.
    pub fn check(
        alloc: Global,
        coded: &Coded,
        base: &Closed,
        candidates: ClauseList,
        proofs: Proofs,
    ) -> Result<Closed, OrMemory<NotClosed>>
        requires task { problem base.now.task ≡ problem coded.now }
        requires below { All (IsBelow (coded.now.design.vars + 1)) candidates }
        ensures closed { IfOk result (λ closed. closed
            ≡ record { task = coded.now; clauses = joined base.now.clauses candidates }) }
        ensures accepted { OnOk result (AreTaken coded.now base.now.clauses candidates proofs
            (length candidates)) }
        ensures refused { IfRefused result
            (IsFirstRefusal coded.now base.now.clauses candidates proofs) }
    {
        let task = coded.task().share()?;
        accept_all(alloc, coded, &base.clauses, &candidates, proofs)?;
        let clauses = joined(alloc, &base.clauses, &candidates)?;
        Ok(Closed { task, clauses })
    }

    /// The candidates that the list does not have, each once.
    pub fn fresh(&self, alloc: Global, candidates: &ClauseList) -> Result<ClauseList, Memory>
        ensures { IfOk result (λ added. added ≡ fresh self.now.clauses candidates.now) }
    {
        fresh(alloc, &self.clauses, candidates)
    }

    /// What `check` answers, by a checker that holds the list and the candidates already. The list grows in place, and its task
    /// is then that of `coded`.
    pub fn grow(
        &mut self,
        alloc: Global,
        coded: &Coded,
        checker: &mut StepChecker,
        candidates: ClauseList,
        proofs: Proofs,
    ) -> Result<(), OrMemory<NotClosed>>
        requires task { problem self.old.task ≡ problem coded.now }
        requires below { All (IsBelow (coded.now.design.vars + 1)) candidates }
        requires fresh { fresh self.old.clauses candidates ≡ candidates }
        requires checker { checker.old
            ≡ record { task = coded.now; list = self.old.clauses ++ candidates } }
        ensures closed { OnOk result (self.new
            ≡ record { task = coded.now; clauses = joined self.old.clauses candidates }) }
        ensures accepted { OnOk result (AreTaken coded.now self.old.clauses candidates proofs
            (length candidates)) }
        ensures refused { IfRefused result
            (IsFirstRefusal coded.now self.old.clauses candidates proofs) }
        ensures same { OnErr result (self.new ≡ self.old) }
        ensures checker { checker.new ≡ checker.old }
    {
        let task = coded.task().share()?;
        checker.accept(alloc, coded, &candidates, proofs)?;
        self.clauses.append(candidates)?;
        self.task = task;
        Ok(())
    }

    /// Whether the proof shows that the property is broken in no row that meets the clauses, with nothing assumed. In a
    /// refusal the number is 0.
    pub fn covers(
        &self,
        alloc: Global,
        coded: &Coded,
        prop: u32,
        proof: Refuted,
    ) -> Result<(), OrMemory<NotClosed>>
        requires task { problem self.now.task ≡ problem coded.now }
        requires within { prop < length coded.now.design.bads }
        ensures covered { OnOk result (Covers (circuit coded.now.design) self.now.clauses prop) }
        ensures accepted { OnOk result
            (cover_refusal coded.now self.now.clauses prop proof.lines ≡ None) }
        ensures refused { IfRefused result
            (λ r. cover_refusal coded.now self.now.clauses prop proof.lines ≡ Some r) }
    {
        let mut checker = cover_checker(alloc, coded, &self.clauses)?;
        take_proof(&mut checker, 0, proof.lines, &[coded.bad(prop)])
    }

    pub fn task(&self) -> &Task
        ensures { result.now ≡ self.now.task }
    {
        &self.task
    }

    /// Tells that the list is closed; the clauses are read by `ClosedSet`.
    pub fn is_closed(&self)
        ensures closed { IsClosed (problem self.now.task) self.now.clauses }
    {
        let _ = self.clauses.len();
    }
}
