//! The clauses that a checker is given.

ghost use Rattle.std.specs.Prelude.{◌≡◌, ◌+◌, ◌<◌, [], ◌∷◌, ℕ, false, All, IfOk, OnOk, map};
ghost use Rattle.ja_base.specs.Literals.{variable};
ghost use Rattle.ja_base.specs.Clauses.{IsBelow};
ghost use Rattle.aig_model.specs.Netlist.{IsSound, circuit};
ghost use Rattle.refute_check.specs.Checked.{IsAdded};
ghost use Rattle.ja_project.specs.Latches.{is_foreign};
ghost use Rattle.inv_cert.specs.Loaded.{design_clauses};
ghost use Rattle.inv_cert.specs.Queries.{cover_clauses, step_clauses};
ghost use Rattle.inv_cert.specs.Taken.{IsLoaded, Loads};

use ja_base::{Clause, ClauseList, Lit, Memory};
use ja_project::Coded;
use refute_check::Checker;
use std::alloc::Global;

fn add_all(alloc: Global, checker: &mut Checker, clauses: &[Clause]) -> Result<(), Memory>
    requires { All (IsBelow checker.old.vars) clauses.now }
    ensures { OnOk result (Loads checker.old clauses.now checker.new) }
{
    for clause in clauses {
        checker.add(alloc, clause)?;
    }
    Ok(())
}

/// Adds the clause of this literal alone.
fn add_unit(alloc: Global, checker: &mut Checker, lit: Lit) -> Result<(), Memory>
    requires { variable lit < checker.old.vars }
    ensures { OnOk result (IsAdded checker.old (lit ∷ []) checker.new) }
{
    let unit = Clause::from_lits(alloc, &[lit])?;
    checker.add(alloc, &unit)?;
    Ok(())
}

fn add_units(alloc: Global, checker: &mut Checker, lits: &[Lit]) -> Result<(), Memory>
    requires { IsBelow checker.old.vars lits.now }
    ensures { OnOk result (Loads checker.old (map (λ l. l ∷ []) lits.now) checker.new) }
{
    for lit in lits {
        add_unit(alloc, checker, *lit)?;
    }
    Ok(())
}

/// The checker for a step, with no list yet.
pub(crate) fn design_checker(alloc: Global, coded: &Coded) -> Result<Checker, Memory>
    ensures loaded { IfOk result
        (IsLoaded (coded.now.design.vars + 1) (design_clauses coded.now)) }
    ensures sound { IsSound coded.now.design }
{
    let mut checker = Checker::new(alloc, coded.vars())?;
    add_all(alloc, &mut checker, coded.clauses().as_slice())?;
    add_units(alloc, &mut checker, coded.held())?;
    Ok(checker)
}

/// The checker for what is to hold one step later.
pub(crate) fn step_checker(
    alloc: Global,
    coded: &Coded,
    base: &ClauseList,
    candidates: &ClauseList,
) -> Result<Checker, Memory>
    requires base { All (λ clause. is_foreign (circuit coded.now.design) clause ≡ false) base.now }
    requires candidates { All (IsBelow (coded.now.design.vars + 1)) candidates.now }
    ensures { IfOk result
        (IsLoaded (coded.now.design.vars + 1) (step_clauses coded.now base.now candidates.now)) }
{
    let mut checker = design_checker(alloc, coded)?;
    add_all(alloc, &mut checker, base.as_slice())?;
    add_all(alloc, &mut checker, candidates.as_slice())?;
    Ok(checker)
}

/// The checker for what is to hold in each row that meets the list, with no assumption.
pub(crate) fn cover_checker(
    alloc: Global,
    coded: &Coded,
    clauses: &ClauseList,
) -> Result<Checker, Memory>
    requires { All (λ clause. is_foreign (circuit coded.now.design) clause ≡ false) clauses.now }
    ensures loaded { IfOk result
        (IsLoaded (coded.now.design.vars + 1) (cover_clauses coded.now clauses.now)) }
    ensures sound { IsSound coded.now.design }
{
    let mut checker = Checker::new(alloc, coded.vars())?;
    add_all(alloc, &mut checker, coded.clauses().as_slice())?;
    add_all(alloc, &mut checker, clauses.as_slice())?;
    Ok(checker)
}
