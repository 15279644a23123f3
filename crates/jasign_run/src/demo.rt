//! `demo N ..`: the demonstration's design of N latches is signed off. No file is read.

ghost use Rattle.std.specs.Prelude.{◌≡◌, ◌≤◌, true, length, replicate, IfOk};
ghost use Rattle.aig_model.specs.Netlist.{circuit, IsSound};
ghost use Rattle.aiger_ascii.specs.Grammar.{IsAsciiDesign};
ghost use Rattle.demo_ring.specs.DemoText.{demo_text};
ghost use Rattle.ja_words.specs.Asked.{IsDemoInRange, demo as demo_read};
ghost use Rattle.jasign_run.specs.Demo.{Demonstrates, demo_terms};
ghost use Rattle.jasign_run.specs.Meaning.{Demos, Ends};
ghost use Rattle.jasign_run.specs.Lines.{outcome_report};
ghost use Rattle.jasign_run.specs.declared.outcome.Outcome.{Outcome as Outcomes};

use crate::ending::finish;
use crate::outcome::{Outcome, Ran, Stop};
use crate::sign::report_on;
use aig_model::{Design, Expect};
use aiger_ascii::read_ascii;
use demo_ring::{demo_text, demo_text_is_a_design};
use ja_base::{Memory, OrMemory};
use ja_outside::{Gate, Sink};
use ja_words::Demo;
use report::Report;
use sign_task::Terms;
use std::alloc::Global;
use std::sync::Wait;
use std::thread::Threads;

/// No limit, to the end, with no journal.
fn demo_terms() -> Terms
    ensures { result ≡ demo_terms }
{
    Terms {
        limit: None,
        fail_fast: false,
        journal: false,
    }
}

/// The design that the demonstration's text spells. That it spells one is a law, so no reader refuses it.
fn ring_of(alloc: Global, n: u32) -> Result<Design, Memory>
    requires some { 3 ≤ n }
    requires most { n ≤ 1000 }
    ensures spelled { IfOk result (λ d. IsAsciiDesign (demo_text n) (circuit d)) }
    ensures sound { IfOk result IsSound }
{
    let text = demo_text(alloc, n)?;
    demo_text_is_a_design();
    match read_ascii(alloc, text.bytes()) {
        Ok(design) => {
            let _ = design.vars();
            Ok(design)
        }
        Err(OrMemory::Refused(_)) => unreachable!(),
        Err(OrMemory::Memory) => Err(Memory),
    }
}

fn report_of<G: Gate + Sync, R: Threads + Wait + Sync>(
    rt: &R,
    alloc: Global,
    demo: &Demo,
    gate: &G,
) -> Result<Report, Memory>
    requires { IsDemoInRange demo.now }
    ensures { IfOk result (Demonstrates (demo_read demo.now)) }
{
    let design = ring_of(alloc, demo.n)?;
    let expect = Expect::all(alloc, design.props())?;
    let report = report_on(rt, alloc, design, expect, demo_terms(), demo.workers, gate)?;
    Ok(report)
}

fn outcome_of<G: Gate + Sync, R: Threads + Wait + Sync>(
    rt: &R,
    alloc: Global,
    demo: Demo,
    gate: &G,
) -> Outcome
    requires { IsDemoInRange demo }
    ensures { Demos (demo_read demo) result }
{
    match report_of(rt, alloc, &demo, gate) {
        Ok(report) => Outcome::Demonstrated {
            size: demo.n,
            report,
        },
        Err(Memory) => Outcome::Stopped(Stop::Memory),
    }
}

/// Signs off the demonstration's design, each of whose properties is expected to hold; writes the report's summary, and answers
/// the report with its status.
pub fn demo_run<K: Sink, G: Gate + Sync, R: Threads + Wait + Sync>(
    rt: &R,
    alloc: Global,
    demo: Demo,
    out: &mut K,
    gate: &G,
) -> Ran
    requires { IsDemoInRange demo }
    ensures means { (o : Outcomes) × Demos (demo_read demo) o × (result.report ≡ outcome_report o)
        × Ends o result.status (K.written out.old) (K.written out.new) (K.faults out.old)
        (K.faults out.new) }
    ensures later { K.faults out.old ≤ K.faults out.new }
{
    let outcome = outcome_of(rt, alloc, demo, gate);
    finish(alloc, outcome, out)
}
