//! The candidates, one after the other, each with its proof.

ghost use Rattle.std.specs.Prelude.{◌≡◌, ◌+◌, ℕ, List, All, OnOk, None, Some, length, false};
ghost use Rattle.ja_base.specs.Answers.{IfRefused};
ghost use Rattle.ja_base.specs.Clauses.{IsBelow};
ghost use Rattle.aig_model.specs.Netlist.{circuit};
ghost use Rattle.ja_project.specs.Latches.{is_foreign};
ghost use Rattle.inv_cert.specs.Queries.{step_clauses};
ghost use Rattle.inv_cert.specs.Refusals.{AreTaken, IsFirstRefusal};
ghost use Rattle.inv_cert.specs.Taken.{IsLoaded, refusal_by};

use crate::load::step_checker;
use crate::not_closed::NotClosed;
use crate::proof::take_proof;
use ja_base::{Clause, ClauseList, OrMemory};
use ja_project::{Coded, ResetTable, negated_next};
use refute_check::{Checker, Proofs, Refuted};
use std::alloc::Global;

/// Accepts the candidate of this number, or tells what is wrong with it first. The checker is left as it was loaded.
fn accept(
    alloc: Global,
    coded: &Coded,
    table: &ResetTable,
    checker: &mut Checker,
    number: u32,
    clause: &Clause,
    proof: Option<Refuted>,
) -> Result<(), OrMemory<NotClosed>>
    requires table { table.now ≡ coded.now.design }
    requires loaded { IsLoaded (coded.now.design.vars + 1) checker.old.list checker.old }
    requires below { IsBelow (coded.now.design.vars + 1) clause.now }
    ensures accepted { OnOk result
        (refusal_by coded.now checker.old.list number clause.now proof ≡ None) }
    ensures loaded { IsLoaded (coded.now.design.vars + 1) checker.old.list checker.new }
    ensures refused { IfRefused result
        (λ r. refusal_by coded.now checker.old.list number clause.now proof ≡ Some r) }
{
    if table.is_foreign(clause) {
        return Err(OrMemory::Refused(NotClosed::Foreign(number)));
    }
    if !table.starts(clause) {
        return Err(OrMemory::Refused(NotClosed::Start(number)));
    }
    let Some(proof) = proof else {
        return Err(OrMemory::Refused(NotClosed::Missing(number)));
    };
    let under = negated_next(alloc, coded, clause)?;
    take_proof(checker, number, proof.lines, under.as_slice())
}

/// Each candidate with its proof, which is taken by the checker and given back. Further proofs are passed over.
pub(crate) fn accept_each(
    alloc: Global,
    coded: &Coded,
    table: &ResetTable,
    checker: &mut Checker,
    candidates: &ClauseList,
    proofs: Proofs,
) -> Result<(), OrMemory<NotClosed>>
    requires table { table.now ≡ coded.now.design }
    requires loaded { IsLoaded (coded.now.design.vars + 1) checker.old.list checker.old }
    requires candidates { All (IsBelow (coded.now.design.vars + 1)) candidates.now }
    ensures loaded { IsLoaded (coded.now.design.vars + 1) checker.old.list checker.new }
    ensures accepted { (base : List (List ℕ))
        → checker.old.list ≡ step_clauses coded.now base candidates.now
        → OnOk result (AreTaken coded.now base candidates.now proofs (length candidates.now)) }
    ensures refused { (base : List (List ℕ))
        → checker.old.list ≡ step_clauses coded.now base candidates.now
        → IfRefused result (IsFirstRefusal coded.now base candidates.now proofs) }
{
    let mut proofs = proofs.into_vec().into_iter();
    for number in 0..candidates.len() {
        let clause = candidates.get(number);
        accept(alloc, coded, table, checker, number, clause, proofs.next())?;
    }
    Ok(())
}

/// The clauses are given to one checker once.
pub(crate) fn accept_all(
    alloc: Global,
    coded: &Coded,
    base: &ClauseList,
    candidates: &ClauseList,
    proofs: Proofs,
) -> Result<(), OrMemory<NotClosed>>
    requires base { All (λ clause. is_foreign (circuit coded.now.design) clause ≡ false) base.now }
    requires candidates { All (IsBelow (coded.now.design.vars + 1)) candidates.now }
    ensures accepted { OnOk result
        (AreTaken coded.now base.now candidates.now proofs (length candidates.now)) }
    ensures refused { IfRefused result (IsFirstRefusal coded.now base.now candidates.now proofs) }
{
    let table = ResetTable::new(alloc, coded.task())?;
    let mut checker = step_checker(alloc, coded, base, candidates)?;
    accept_each(alloc, coded, &table, &mut checker, candidates, proofs)
}
