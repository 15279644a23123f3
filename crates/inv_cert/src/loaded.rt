//! A checker of proofs that stays loaded.

ghost use Rattle.std.specs.Prelude.{◌≡◌, ◌+◌, ℕ, List, [], ◌∷◌, ◌++◌, length, All, IfOk, OnOk, OnErr};
ghost use Rattle.ja_base.specs.Answers.{IfRefused};
ghost use Rattle.ja_base.specs.Clauses.{IsBelow};
ghost use Rattle.refute_check.specs.Checked.{IsAdded};
ghost use Rattle.inv_cert.specs.Refusals.{AreTaken, IsFirstRefusal};

use crate::check::accept_each;
use crate::load::design_checker;
use crate::not_closed::NotClosed;
use aig_model::Task;
use ja_base::{Clause, ClauseList, Memory, OrMemory};
use ja_project::{Coded, ResetTable};
use refute_check::{Checker, Proofs};
use std::alloc::Global;
use std::marker::Model;

/// A checker with the clauses of a task's design, its assumptions, and a list that grows.
#[derive(Drop)]
pub struct StepChecker {
    task: Task,
    table: ResetTable,
    checker: Checker,
    list: ClauseList,
}

impl Model for StepChecker {
    ghost use Rattle.inv_cert.specs.Loaded.{IsStepChecker, StepList};

    ghost Value = { StepList };

    ghost view = { λ a. record { task = a.task; list = a.list } };

    ghost invariant = { λ a. IsStepChecker a.task a.table a.list a.checker };
}

/// The clause comes to both, or to neither.
fn add_both(
    alloc: Global,
    checker: &mut Checker,
    list: &mut ClauseList,
    clause: &Clause,
) -> Result<(), Memory>
    requires { IsBelow checker.old.vars clause.now }
    ensures list { OnOk result (list.new ≡ list.old ++ clause.now ∷ []) }
    ensures added { OnOk result (IsAdded checker.old clause.now checker.new) }
    ensures list_err { OnErr result (list.new ≡ list.old) }
    ensures checker_err { OnErr result (checker.new ≡ checker.old) }
{
    list.push(clause.copy(alloc)?)?;
    if let Err(memory) = checker.add(alloc, clause) {
        let _last = list.pop();
        return Err(memory);
    }
    Ok(())
}

impl StepChecker {
    /// Holds the clauses of the design and each assumption, and no clause behind them.
    pub fn new(alloc: Global, coded: &Coded) -> Result<StepChecker, Memory>
        ensures { IfOk result (λ checker. checker ≡ record { task = coded.now; list = [] }) }
    {
        Ok(StepChecker {
            task: coded.task().share()?,
            table: ResetTable::new(alloc, coded.task())?,
            checker: design_checker(alloc, coded)?,
            list: ClauseList::new(alloc),
        })
    }

    /// The clause comes behind those that are there.
    pub fn add(&mut self, alloc: Global, clause: &Clause) -> Result<(), Memory>
        requires { IsBelow (self.old.task.design.vars + 1) clause.now }
        ensures ok { OnOk result (self.new
            ≡ record { task = self.old.task; list = self.old.list ++ clause.now ∷ [] }) }
        ensures err { OnErr result (self.new ≡ self.old) }
    {
        add_both(alloc, &mut self.checker, &mut self.list, clause)
    }

    /// The clauses behind those of the design and the assumptions.
    pub fn list(&self) -> &ClauseList
        ensures { result.now ≡ self.now.list }
    {
        &self.list
    }

    /// Accepts each of the last clauses, which are the candidates, by its proof. Further proofs are passed over.
    pub(crate) fn accept(
        &mut self,
        alloc: Global,
        coded: &Coded,
        candidates: &ClauseList,
        proofs: Proofs,
    ) -> Result<(), OrMemory<NotClosed>>
        requires task { self.old.task ≡ coded.now }
        requires below { All (IsBelow (coded.now.design.vars + 1)) candidates.now }
        ensures same { self.new ≡ self.old }
        ensures accepted { (base : List (List ℕ)) → self.old.list ≡ base ++ candidates.now
            → OnOk result (AreTaken coded.now base candidates.now proofs (length candidates.now)) }
        ensures refused { (base : List (List ℕ)) → self.old.list ≡ base ++ candidates.now
            → IfRefused result (IsFirstRefusal coded.now base candidates.now proofs) }
    {
        accept_each(
            alloc,
            coded,
            &self.table,
            &mut self.checker,
            candidates,
            proofs,
        )
    }
}
