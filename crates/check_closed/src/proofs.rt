//! Proofs of the candidates: out of a file, or by the solver.

ghost use Rattle.std.specs.Prelude.{◌≡◌, ◌+◌, ◌<◌, All, IfOk};
ghost use Rattle.ja_base.specs.Literals.{variable};
ghost use Rattle.ja_base.specs.Clauses.{IsBelow};

use ja_base::{Clause, ClauseList, Lit, Lits, Memory, Meter};
use ja_outside::NoFlag;
use ja_project::{Coded, ResetTable, negated_next};
use refute_check::{Lines, Proofs, Refuted};
use sat_plain::{PlainSat, Sat, SatAnswer};
use std::alloc::Global;

/// Each line is a proof of its own.
pub(crate) fn proofs_of_lines(alloc: Global, lines: Lines) -> Result<Proofs, Memory> {
    let mut proofs = Proofs::new(alloc);
    for line in lines.into_vec() {
        let mut lines = Lines::new(alloc);
        lines.push(line)?;
        proofs.push(Refuted {
            core: Lits::new(alloc),
            lines,
        })?;
    }
    Ok(proofs)
}

pub(crate) fn add_all(
    alloc: Global,
    solver: &mut PlainSat,
    clauses: &[Clause],
) -> Result<(), Memory>
    requires { All (IsBelow solver.old.vars) clauses.now }
    ensures { solver.new.vars ≡ solver.old.vars }
{
    for clause in clauses {
        solver.add(alloc, clause)?;
    }
    Ok(())
}

/// The literal as a clause.
fn add_unit(alloc: Global, solver: &mut PlainSat, lit: Lit) -> Result<(), Memory>
    requires { variable lit < solver.old.vars }
    ensures { solver.new.vars ≡ solver.old.vars }
{
    let unit = Clause::from_lits(alloc, &[lit])?;
    solver.add(alloc, &unit)?;
    Ok(())
}

fn add_units(alloc: Global, solver: &mut PlainSat, lits: &[Lit]) -> Result<(), Memory>
    requires { IsBelow solver.old.vars lits.now }
    ensures { solver.new.vars ≡ solver.old.vars }
{
    for lit in lits {
        add_unit(alloc, solver, *lit)?;
    }
    Ok(())
}

/// No line, where the solver finds a row: nothing is then shown.
pub(crate) fn proof_of(
    alloc: Global,
    solver: &mut PlainSat,
    under: &[Lit],
) -> Result<Refuted, Memory>
    requires { IsBelow solver.old.vars under.now }
    ensures { solver.new.vars ≡ solver.old.vars }
{
    let answer = solver.solve(alloc, under, None, &mut Meter::new(None), &mut NoFlag);
    match answer {
        SatAnswer::Unsat(refuted) => Ok(refuted),
        SatAnswer::Memory => Err(Memory),
        SatAnswer::Sat(_) | SatAnswer::Spent | SatAnswer::Stopped => Ok(Refuted {
            core: Lits::new(alloc),
            lines: Lines::new(alloc),
        }),
    }
}

/// A solver with the clauses of the design.
pub(crate) fn solver_of(alloc: Global, coded: &Coded) -> Result<PlainSat, Memory>
    ensures { IfOk result (λ solver. solver.vars ≡ coded.now.design.vars + 1) }
{
    let mut solver = PlainSat::make(alloc, coded.vars())?;
    add_all(alloc, &mut solver, coded.clauses().as_slice())?;
    Ok(solver)
}

/// What a proof of the clause refutes; nothing, where the clause is foreign, whatever its proof.
fn under_of(
    alloc: Global,
    coded: &Coded,
    table: &ResetTable,
    clause: &Clause,
) -> Result<Lits, Memory>
    requires table { table.now ≡ coded.now.design }
    requires below { IsBelow (coded.now.design.vars + 1) clause.now }
    ensures { IfOk result (IsBelow (coded.now.design.vars + 1)) }
{
    if table.is_foreign(clause) {
        return Ok(Lits::new(alloc));
    }
    let under = negated_next(alloc, coded, clause)?;
    Ok(under)
}

/// A proof for each candidate, over the design, the assumptions and all candidates.
pub(crate) fn solved_proofs(
    alloc: Global,
    coded: &Coded,
    candidates: &ClauseList,
) -> Result<Proofs, Memory>
    requires { All (IsBelow (coded.now.design.vars + 1)) candidates.now }
{
    let table = ResetTable::new(alloc, coded.task())?;
    let mut solver = solver_of(alloc, coded)?;
    add_units(alloc, &mut solver, coded.held())?;
    add_all(alloc, &mut solver, candidates.as_slice())?;
    let mut proofs = Proofs::new(alloc);
    for clause in candidates.as_slice() {
        let under = under_of(alloc, coded, &table, clause)?;
        proofs.push(proof_of(alloc, &mut solver, under.as_slice())?)?;
    }
    Ok(proofs)
}
