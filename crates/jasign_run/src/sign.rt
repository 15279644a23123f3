//! `sign DESIGN [EXPECT] ..`: all properties are signed off in one report.

ghost use Rattle.std.specs.Prelude.{◌≡◌, ◌≤◌, Some, length, IfOk};
ghost use Rattle.sign_task.specs.SignOff.{IsSignOff};
ghost use Rattle.ja_words.specs.Asked.{HasFewWorkers, order as order_read};
ghost use Rattle.jasign_run.specs.Meaning.{Signs, Ends, IsQuiet, task_of, terms_of};
ghost use Rattle.jasign_run.specs.Lines.{outcome_report};
ghost use Rattle.jasign_run.specs.declared.outcome.Outcome.{Outcome as Outcomes};

use crate::ending::finish;
use crate::files::{design_of, expected_of};
use crate::outcome::{Outcome, Ran, Stop};
use aig_model::{Design, Expect, Task};
use ja_base::Memory;
use ja_outside::{Gate, Shelf, Sink};
use ja_words::Order;
use report::Report;
use sat_cdcl::{KeepSat, LearnSat};
use sign_task::{Terms, sign};
use std::alloc::Global;
use std::sync::Wait;
use std::thread::Threads;

/// The solver that the search asks.
type Asked = KeepSat;

/// The solver that logs the proofs.
type Logging = LearnSat;

fn terms_of(order: &Order) -> Terms
    ensures { result ≡ terms_of (order_read order.now) }
{
    Terms {
        limit: Some(order.budget),
        fail_fast: order.fail_fast,
        journal: order.journal,
    }
}

/// The report on the design under these expectations.
pub(crate) fn report_on<G: Gate + Sync, R: Threads + Wait + Sync>(
    rt: &R,
    alloc: Global,
    design: Design,
    expect: Expect,
    terms: Terms,
    workers: u32,
    gate: &G,
) -> Result<Report, Memory>
    requires expected { length expect ≡ length design.bads }
    requires some { 1 ≤ workers }
    requires few { workers ≤ 8 }
    ensures { IfOk result (IsSignOff (task_of design expect) terms) }
{
    let task = Task::new(alloc, design, expect)?;
    let report = sign::<Asked, Logging, G, R>(rt, alloc, &task, terms, workers, gate)?;
    Ok(report)
}

fn outcome_of<F: Shelf, G: Gate + Sync, R: Threads + Wait + Sync>(
    rt: &R,
    alloc: Global,
    order: Order,
    shelf: &mut F,
    gate: &G,
) -> Outcome
    requires { HasFewWorkers order }
    ensures kept { F.holds shelf.new ≡ F.holds shelf.old }
    ensures later { F.faults shelf.old ≤ F.faults shelf.new }
    ensures quiet { IsQuiet (F.faults shelf.old) (F.faults shelf.new) result }
    ensures means { Signs (F.holds shelf.old) (F.faults shelf.old) (F.faults shelf.new)
        (order_read order.entry) result }
{
    let design = match design_of(alloc, shelf, order.design) {
        Ok(design) => design,
        Err(stop) => return Outcome::Stopped(stop),
    };
    let expect = match expected_of(alloc, shelf, order.expect, &design) {
        Ok(expect) => expect,
        Err(stop) => return Outcome::Stopped(stop),
    };
    let terms = terms_of(&order);
    match report_on(rt, alloc, design, expect, terms, order.workers, gate) {
        Ok(report) => Outcome::Signed(report),
        Err(Memory) => Outcome::Stopped(Stop::Memory),
    }
}

/// Signs off the design that stands under a name, where each property is expected to hold unless the file of expectations
/// says that it fails; writes the report, and answers it with its status.
pub fn sign_run<F: Shelf, K: Sink, G: Gate + Sync, R: Threads + Wait + Sync>(
    rt: &R,
    alloc: Global,
    order: Order,
    shelf: &mut F,
    out: &mut K,
    gate: &G,
) -> Ran
    requires { HasFewWorkers order }
    ensures kept { F.holds shelf.new ≡ F.holds shelf.old }
    ensures means { (o : Outcomes)
        × Signs (F.holds shelf.old) (F.faults shelf.old) (F.faults shelf.new)
        (order_read order.entry) o
        × IsQuiet (F.faults shelf.old) (F.faults shelf.new) o
        × (result.report ≡ outcome_report o)
        × Ends o result.status (K.written out.old) (K.written out.new) (K.faults out.old)
        (K.faults out.new) }
    ensures shelf_later { F.faults shelf.old ≤ F.faults shelf.new }
    ensures sink_later { K.faults out.old ≤ K.faults out.new }
{
    let outcome = outcome_of(rt, alloc, order, shelf, gate);
    finish(alloc, outcome, out)
}
