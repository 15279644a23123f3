//! A list of clauses is checked, and then which properties it covers.

ghost use Rattle.std.specs.Prelude.{◌≡◌, ◌+◌, All};
ghost use Rattle.ja_base.specs.Clauses.{IsBelow};
ghost use Rattle.aig_model.specs.Task.{problem};

use crate::candidates::candidates_of;
use crate::proofs::{proof_of, proofs_of_lines, solved_proofs, solver_of};
use inv_cert::{Closed, NotClosed};
use ja_base::{ClauseList, ClosedSet, Memory, OrMemory};
use ja_project::Coded;
use refute_check::Lines;
use sat_plain::{PlainSat, Sat};
use std::alloc::Global;

/// What came of a list.
#[derive(Clone, Copy, Debug, PartialEq, Eq)]
pub(crate) enum Certified {
    /// So many clauses are closed; they cover so many properties, where that was asked.
    Closed { clauses: u32, covered: Option<u32> },
    Refused(NotClosed),
    /// A clause has a variable that the design does not have.
    TooLarge,
}

/// The clauses of a list over the variables of its design.
fn add_list(
    alloc: Global,
    coded: &Coded,
    closed: &Closed,
    solver: &mut PlainSat,
) -> Result<(), Memory>
    requires task { problem closed.now.task ≡ problem coded.now }
    requires vars { solver.old.vars ≡ coded.now.design.vars + 1 }
    ensures { solver.new.vars ≡ solver.old.vars }
{
    let _task = coded.task();
    closed.is_closed();
    for at in 0..closed.len() {
        solver.add(alloc, closed.clause(at))?;
    }
    Ok(())
}

/// How many properties the list covers, by proofs of the solver.
fn covered(alloc: Global, coded: &Coded, closed: &Closed) -> Result<u32, Memory>
    requires { problem closed.now.task ≡ problem coded.now }
{
    let props = coded.task().design().props();
    let mut solver = solver_of(alloc, coded)?;
    add_list(alloc, coded, closed, &mut solver)?;
    let mut count = 0u32;
    for prop in 0..props {
        let proof = proof_of(alloc, &mut solver, &[coded.bad(prop)])?;
        match closed.covers(alloc, coded, prop, proof) {
            Ok(()) => count = count.saturating_add(1),
            Err(OrMemory::Refused(_)) => {}
            Err(OrMemory::Memory) => return Err(Memory),
        }
    }
    Ok(count)
}

/// With proofs that are given, coverage is not asked.
fn checked(
    alloc: Global,
    coded: &Coded,
    candidates: ClauseList,
    lines: Option<Lines>,
) -> Result<Certified, Memory>
    requires { All (IsBelow (coded.now.design.vars + 1)) candidates }
{
    let base = Closed::empty(alloc, coded.task())?;
    let solved = lines.is_none();
    let proofs = match lines {
        Some(lines) => proofs_of_lines(alloc, lines)?,
        None => solved_proofs(alloc, coded, &candidates)?,
    };
    match Closed::check(alloc, coded, &base, candidates, proofs) {
        Ok(closed) => {
            let covered = if solved {
                Some(covered(alloc, coded, &closed)?)
            } else {
                None
            };
            Ok(Certified::Closed {
                clauses: closed.len(),
                covered,
            })
        }
        Err(OrMemory::Refused(refusal)) => Ok(Certified::Refused(refusal)),
        Err(OrMemory::Memory) => Err(Memory),
    }
}

pub(crate) fn certify(
    alloc: Global,
    coded: &Coded,
    clauses: Lines,
    proofs: Option<Lines>,
) -> Result<Certified, Memory> {
    match candidates_of(alloc, coded.vars(), &clauses)? {
        Some(candidates) => checked(alloc, coded, candidates, proofs),
        None => Ok(Certified::TooLarge),
    }
}
