//! Lists of clauses for a solver.

ghost use Rattle.std.specs.Prelude.{◌≡◌, ◌+◌, ◌<◌, ◌≤◌, [], ◌∷◌, ◌++◌, All, OnOk, map};
ghost use Rattle.ja_base.specs.Literals.{variable};
ghost use Rattle.ja_base.specs.Clauses.{IsBelow};
ghost use Rattle.aig_model.specs.Task.{problem};

use inv_cert::Closed;
use ja_base::{Clause, ClosedSet, Lit, Memory};
use ja_project::Coded;
use sat_plain::Sat;
use std::alloc::Global;

pub(crate) fn add_all<S: Sat>(
    alloc: Global,
    solver: &mut S,
    clauses: &[Clause],
) -> Result<(), Memory>
    requires { All (IsBelow (S.count solver.old)) clauses.now }
    ensures count { S.count solver.new ≡ S.count solver.old }
    ensures added { OnOk result (S.added solver.new ≡ S.added solver.old ++ clauses.now) }
{
    for clause in clauses {
        solver.add(alloc, clause)?;
    }
    Ok(())
}

/// Adds the clause of this literal alone.
fn add_unit<S: Sat>(alloc: Global, solver: &mut S, lit: Lit) -> Result<(), Memory>
    requires { variable lit < S.count solver.old }
    ensures count { S.count solver.new ≡ S.count solver.old }
    ensures added { OnOk result (S.added solver.new ≡ S.added solver.old ++ (lit ∷ []) ∷ []) }
{
    let unit = Clause::from_lits(alloc, &[lit])?;
    solver.add(alloc, &unit)?;
    Ok(())
}

pub(crate) fn add_units<S: Sat>(alloc: Global, solver: &mut S, lits: &[Lit]) -> Result<(), Memory>
    requires { IsBelow (S.count solver.old) lits.now }
    ensures count { S.count solver.new ≡ S.count solver.old }
    ensures added { OnOk result
        (S.added solver.new ≡ S.added solver.old ++ map (λ l. l ∷ []) lits.now) }
{
    for lit in lits {
        add_unit(alloc, solver, *lit)?;
    }
    Ok(())
}

/// Adds the clauses of a closed list.
pub(crate) fn add_closed<S: Sat>(
    alloc: Global,
    coded: &Coded,
    solver: &mut S,
    closed: &Closed,
) -> Result<(), Memory>
    requires task { problem closed.now.task ≡ problem coded.now }
    requires wide { coded.now.design.vars + 1 ≤ S.count solver.old }
    ensures count { S.count solver.new ≡ S.count solver.old }
    ensures added { OnOk result (S.added solver.new ≡ S.added solver.old ++ closed.now.clauses) }
{
    let _task = coded.task();
    closed.is_closed();
    for at in 0..closed.len() {
        solver.add(alloc, closed.clause(at))?;
    }
    Ok(())
}
