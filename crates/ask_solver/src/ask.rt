//! Queries and questions under lists of literals.

ghost use Rattle.std.specs.Prelude.{◌≡◌, IfOk};
ghost use Rattle.std.specs.Bool.{OnTrue};
ghost use Rattle.ja_base.specs.Clauses.{IsBelow};

use crate::dimacs::Lists;
use crate::report::Report;
use ja_base::{Clause, Lit, Memory, Meter, Row};
use ja_outside::Flag;
use sat_cdcl::{KeepSat, LearnSat};
use sat_plain::{Probe, Sat};
use std::alloc::Global;

/// A flag that is never raised and counts its polls, one behind each unit.
#[derive(Clone, Copy, Debug)]
struct Polls {
    count: u64,
}

impl Flag for Polls {
    ghost use Rattle.std.specs.Prelude.{false};

    ghost raised = { λ _. 0 };

    ghost may_rise = { λ _. false };

    fn poll(&mut self) -> bool
        ensures { result ≡ false }
    {
        self.count = self.count.saturating_add(1);
        false
    }
}

/// Whether the variables of these literals are below this one.
fn is_below(lits: &[Lit], vars: u32) -> bool
    ensures { OnTrue result (IsBelow vars lits.now) }
{
    for lit in lits {
        if lit.var().number() >= vars {
            return false;
        }
    }
    true
}

/// A solver with these clauses.
fn load<S: Sat>(alloc: Global, clauses: &Lists, vars: u32) -> Result<S, Memory>
    ensures { IfOk result (λ solver. S.count solver ≡ vars) }
{
    let mut solver = S::make(alloc, vars)?;
    for lits in &clauses.lists {
        let clause = Clause::from_lits(alloc, lits.as_slice())?;
        if is_below(clause.lits(), vars) {
            solver.add(alloc, &clause)?;
        }
    }
    Ok(solver)
}

/// Asks under each list in turn, and reports what is answered, or the lines of each refutation.
pub(crate) fn answers(
    alloc: Global,
    clauses: &Lists,
    unders: &Lists,
    with_log: bool,
    report: &mut Report,
) -> Result<(), Memory> {
    let vars = clauses.vars.max(unders.vars);
    let mut solver: LearnSat = load(alloc, clauses, vars)?;
    for under in &unders.lists {
        if is_below(under.as_slice(), vars) {
            let mut polls = Polls { count: 0 };
            let answer = solver.solve(
                alloc,
                under.as_slice(),
                None,
                &mut Meter::new(None),
                &mut polls,
            );
            report.answer(alloc, &answer, polls.count, with_log)?;
        }
    }
    Ok(())
}

/// Asks the solver that keeps what it learns under each list in turn.
pub(crate) fn probes(
    alloc: Global,
    clauses: &Lists,
    unders: &Lists,
    report: &mut Report,
) -> Result<(), Memory> {
    let vars = clauses.vars.max(unders.vars);
    let mut solver: KeepSat = load(alloc, clauses, vars)?;
    let mut row = Row::zeros(alloc, 0)?;
    for under in &unders.lists {
        if is_below(under.as_slice(), vars) {
            let mut polls = Polls { count: 0 };
            let probed = solver.probe(
                alloc,
                under.as_slice(),
                None,
                None,
                &mut row,
                &mut Meter::new(None),
                &mut polls,
            );
            report.probed(&probed, polls.count)?;
        }
    }
    Ok(())
}
