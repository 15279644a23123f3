//! The report of a board that is over.

ghost use Rattle.std.specs.Prelude.{◌≡◌, All, IfOk, OnOk};
ghost use Rattle.std.specs.List.Sorted.{IsStrictlyIncreasing};
ghost use Rattle.aig_model.specs.Netlist.{IsSound};
ghost use Rattle.sign_task.specs.Sections.{sizes_of};
ghost use Rattle.sign_task.specs.SignOff.{IsSignOff};
ghost use Rattle.sign_task.specs.Underway.{IsUnderway, IsHalted, IsOver};

use crate::marks::{lines_of, marks_of};
use crate::opening::SignBoard;
use crate::stimuli::stimuli_of;
use crate::terms::Terms;
use aig_model::{Design, Task};
use debug_set::{debugging_set, first_broken_is_named, is_joined};
use inv_cert::Closed;
use ja_base::{Clause, ClauseList, ClosedSet, Memory};
use report::{Report, Sizes};
use std::alloc::Global;

fn sizes_of(design: &Design) -> Sizes
    ensures sizes { result ≡ sizes_of design.now }
    ensures sound { IsSound design.now }
{
    Sizes {
        vars: design.vars(),
        inputs: design.inputs(),
        latches: design.latches(),
        gates: design.gates(),
        props: design.props(),
        constraints: design.constraints(),
    }
}

fn copied(alloc: Global, clause: &Clause) -> Result<Clause, Memory>
    ensures value { IfOk result (λ copy. copy ≡ clause.now) }
    ensures ascends { IsStrictlyIncreasing clause.now }
{
    let _ = clause.lits();
    let copy = clause.copy(alloc)?;
    Ok(copy)
}

fn clauses_of(alloc: Global, list: &Closed) -> Result<ClauseList, Memory>
    ensures value { IfOk result (λ clauses. clauses ≡ list.now.clauses) }
    ensures ascend { IfOk result (All IsStrictlyIncreasing) }
{
    let mut clauses = ClauseList::new(alloc);
    for at in 0..list.len() {
        clauses.push(copied(alloc, list.clause(at))?)?;
    }
    Ok(clauses)
}

/// The journal is moved from the board to the report.
pub(crate) fn report_of(
    alloc: Global,
    task: &Task,
    terms: Terms,
    board: SignBoard,
) -> Result<Report, Memory>
    requires underway { IsUnderway task.now terms board }
    requires halted { IsHalted task.now board }
    requires over { IsOver task.now board }
    ensures { IfOk result (IsSignOff task.now terms) }
{
    let parts = board.into_parts();
    parts.list.is_closed();
    first_broken_is_named();
    let kept = marks_of(alloc, parts.marks.as_slice())?;
    let (marks, expect) = (kept.as_slice(), task.expect());
    let lines = lines_of(alloc, expect, marks)?;
    let clauses = clauses_of(alloc, &parts.list)?;
    let stimuli = stimuli_of(alloc, marks, parts.failures.as_slice())?;
    let set = debugging_set(alloc, expect, marks)?;
    Ok(Report {
        sizes: sizes_of(task.design()),
        lines,
        clauses,
        stimuli,
        joined: is_joined(expect, marks),
        set,
        journal: parts.journal,
        shown: terms.journal,
    })
}
