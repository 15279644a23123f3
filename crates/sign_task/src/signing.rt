//! A sign-off.

ghost use Rattle.std.specs.Prelude.{◌≤◌, IfOk};
ghost use Rattle.sign_task.specs.SignOff.{IsSignOff};

use crate::finishing::finish;
use crate::opening::open;
use crate::reporting::report_of;
use crate::terms::Terms;
use crate::working::work;
use aig_model::Task;
use ja_base::Memory;
use ja_outside::Gate;
use ja_project::Coded;
use report::Report;
use sat_plain::{Probe, Sat};
use std::alloc::Global;
use std::sync::Wait;
use std::thread::Threads;

/// From 1 to 8 workers decide the properties, each on one engine, and pass the gate; what they leave open is given up or decided by
/// the calling thread. The searches ask an `S`, and an `L` logs the proofs.
pub fn sign<S: Probe + Send, L: Sat + Send, G: Gate + Sync, R: Threads + Wait + Sync>(
    rt: &R,
    alloc: Global,
    task: &Task,
    terms: Terms,
    workers: u32,
    gate: &G,
) -> Result<Report, Memory>
    requires some { 1 ≤ workers }
    requires few { workers ≤ 8 }
    ensures { IfOk result (IsSignOff task.now terms) }
{
    let coded = Coded::new(alloc, task)?;
    let board = open(alloc, task, terms)?;
    let mut board = work::<S, L, G, R>(rt, alloc, board, &coded, terms, workers, gate)?;
    finish::<S, L>(alloc, &coded, terms, &mut board)?;
    let report = report_of(alloc, task, terms, board)?;
    Ok(report)
}
