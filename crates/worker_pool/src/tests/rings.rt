//! Designs, tasks and boards for tests.

ghost use Rattle.std.specs.Prelude.{◌≡◌, ◌+◌, length, nat_lt, All, IfOk, IfSome};
ghost use Rattle.std.specs.Bool.{OnTrue};
ghost use Rattle.std.specs.List.{list_all};
ghost use Rattle.ja_base.specs.Literals.{variable};
ghost use Rattle.ja_base.specs.Clauses.{IsBelow};
ghost use Rattle.aig_model.specs.Task.{problem};

use aig_model::{Expect, Task};
use aiger_ascii::read_ascii;
use inv_cert::Closed;
use ja_base::{Clause, ClauseList, Lit, Lits, Memory, OrMemory, Row};
use ja_project::Coded;
use job_plan::plan;
use local_stim::LocalFailure;
use refute_check::{Hints, Line, Lines, Proofs, Refuted};
use std::alloc::Global;
use store_core::{Board, Opening};

/// A one-hot ring of three, and for each two of its latches that they are not both 1.
pub(crate) const RING: &[u8] =
    b"aag 6 0 3 0 3 3\n2 6 1\n4 2\n6 4\n8\n10\n12\n8 4 2\n10 6 4\n12 6 2\n";

/// Two latches: the first is 1 from step 1 on, the second one step later.
pub(crate) const TWO: &[u8] = b"aag 2 0 2 0 0 2\n2 1\n4 2\n2\n4\n";

/// Three latches, each of which is 1 one step after the one before it; the property is broken at step 3.
pub(crate) const LATER: &[u8] = b"aag 3 0 3 0 0 1\n2 1\n4 2\n6 4\n6\n";

/// Eight properties that are never broken.
pub(crate) const EIGHT: &[u8] = b"aag 0 0 0 0 0 8\n0\n0\n0\n0\n0\n0\n0\n0\n";

/// The board of a task, and the task as clauses.
pub(crate) type Opened = (Board<Closed, LocalFailure>, Coded);

/// Each property is expected to hold.
fn task_of(alloc: Global, text: &[u8]) -> Option<Task> {
    let design = read_ascii(alloc, text).ok()?;
    let expect = Expect::all(alloc, design.props()).ok()?;
    Task::new(alloc, design, expect).ok()
}

fn assumed_row(alloc: Global, expect: &Expect) -> Result<Row, Memory>
    ensures { IfOk result (λ row. row ≡ expect.now) }
{
    let mut bits = Vec::with_capacity(alloc, expect.len() as usize)?;
    for prop in 0..expect.len() {
        bits.push_reserved(expect.is_assumed(prop));
    }
    Ok(Row::from_bits(bits))
}

fn board_of(
    alloc: Global,
    task: &Task,
    fail_fast: bool,
    limit: Option<u64>,
) -> Result<Board<Closed, LocalFailure>, Memory>
    ensures task { IfOk result (λ board. problem board.list.task ≡ problem task.now) }
    ensures assumed { IfOk result (λ board. board.opening.assumed ≡ task.now.expected) }
{
    let opening = Opening {
        plan: plan(alloc, task)?,
        assumed: assumed_row(alloc, task.expect())?,
        fail_fast,
        limit,
    };
    let list = Closed::empty(alloc, task)?;
    let board = Board::new(alloc, opening, list)?;
    Ok(board)
}

fn opened(alloc: Global, task: &Task, fail_fast: bool, limit: Option<u64>) -> Result<Opened, Memory>
    ensures task { IfOk result (λ r. problem r.0.list.task ≡ problem r.1) }
    ensures width { IfOk result (λ r. length r.0.opening.assumed ≡ length r.1.design.bads) }
{
    let board = board_of(alloc, task, fail_fast, limit)?;
    let coded = Coded::new(alloc, task)?;
    let _task = coded.task();
    Ok((board, coded))
}

/// A board of the design, where it is one and there is memory.
pub(crate) fn open(
    alloc: Global,
    text: &[u8],
    fail_fast: bool,
    limit: Option<u64>,
) -> Option<Opened>
    ensures task { IfSome result (λ r. problem r.0.list.task ≡ problem r.1) }
    ensures width { IfSome result (λ r. length r.0.opening.assumed ≡ length r.1.design.bads) }
{
    let task = task_of(alloc, text)?;
    opened(alloc, &task, fail_fast, limit).ok()
}

fn clause(alloc: Global, numbers: [u32; 2]) -> Result<Clause, Memory> {
    Clause::from_lits(alloc, &[Lit(numbers[0]), Lit(numbers[1])])
}

fn are_below(vars: u32, lits: &[Lit]) -> bool
    ensures { result ≡ list_all (λ l. nat_lt (variable l) vars) lits.now }
{
    lits.iter().all(|lit| lit.var().number() < vars)
}

fn is_below(vars: u32, lits: &[Lit]) -> bool
    ensures { OnTrue result (IsBelow vars lits.now) }
{
    are_below(vars, lits)
}

/// Not both of the latches 2 and 4, of 4 and 6, of 2 and 6.
fn candidates(alloc: Global, vars: u32) -> Result<Option<ClauseList>, Memory>
    ensures { IfOk result (λ found. IfSome found (All (IsBelow vars))) }
{
    let mut clauses = ClauseList::new(alloc);
    for numbers in [[3, 5], [5, 7], [3, 7]] {
        let clause = clause(alloc, numbers)?;
        if !is_below(vars, clause.lits()) {
            return Ok(None);
        }
        clauses.push(clause)?;
    }
    Ok(Some(clauses))
}

fn line(alloc: Global, numbers: [u32; 2], given: [u32; 2]) -> Result<Line, Memory> {
    let mut hints = Hints::new(alloc);
    for hint in given {
        hints.push(hint)?;
    }
    let clause = clause(alloc, numbers)?;
    Ok(Line { clause, hints })
}

/// A step to two latches that are 1 comes from two others, of which a property was broken: by the assumption on its gate, and the
/// last of the gate's clauses.
fn proofs(alloc: Global) -> Result<Proofs, Memory> {
    let mut proofs = Proofs::new(alloc);
    for (numbers, hints) in [([3, 7], [12, 9]), ([3, 5], [10, 3]), ([5, 7], [11, 6])] {
        let mut lines = Lines::new(alloc);
        lines.push(line(alloc, numbers, hints)?)?;
        proofs.push(Refuted {
            core: Lits::new(alloc),
            lines,
        })?;
    }
    Ok(proofs)
}

/// The clauses that cover each property of the ring.
pub(crate) fn ring_list(alloc: Global, coded: &Coded) -> Result<Option<Closed>, Memory>
    ensures { IfOk result (λ found. IfSome found
        (λ list. problem list.task ≡ problem coded.now)) }
{
    let base = Closed::empty(alloc, coded.task())?;
    let Some(candidates) = candidates(alloc, coded.vars())? else {
        return Ok(None);
    };
    match Closed::check(alloc, coded, &base, candidates, proofs(alloc)?) {
        Ok(closed) => Ok(Some(closed)),
        Err(OrMemory::Refused(_)) => Ok(None),
        Err(OrMemory::Memory) => Err(Memory),
    }
}
