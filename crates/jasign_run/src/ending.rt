//! An outcome becomes a text and a status.

ghost use Rattle.std.specs.Prelude.{◌≡◌, ◌≤◌, ◌⊎◌, IfOk};
ghost use Rattle.jasign_run.specs.Lines.{verdict_status, stop_status, outcome_text, outcome_status, outcome_report};
ghost use Rattle.jasign_run.specs.Meaning.{Writes, Ends};
ghost use Rattle.jasign_run.specs.declared.outcome.Outcome.{Outcome as Outcomes};
ghost use Rattle.jasign_run.specs.declared.outcome.Outcome.TheVariants.{Stopped};
ghost use Rattle.jasign_run.specs.declared.outcome.Stop.TheVariants as stop;

use crate::lines::outcome_text;
use crate::outcome::{Outcome, Ran, Stop};
use crate::verdicts::report_status;
use ja_base::Memory;
use ja_outside::{Sink, write_whole};
use ja_text::Text;
use local_stim::Confirm;
use report::Report;
use std::alloc::Global;

/// 0 where the stimulus is a local failure, and 1 where it is not.
fn verdict_status(verdict: Confirm) -> u8
    ensures { result ≡ verdict_status verdict }
{
    match verdict {
        Confirm::Local => 0,
        Confirm::NotInitial { .. }
        | Confirm::Constraint { .. }
        | Confirm::NotBad
        | Confirm::Assumed { .. } => 1,
    }
}

fn stop_status(stop: &Stop) -> u8
    ensures { result ≡ stop_status stop.now }
{
    match stop {
        Stop::DesignRefused(_) | Stop::StimulusRefused(_) | Stop::ExpectRefused(_) => 3,
        Stop::Usage => 4,
        Stop::Outside => 5,
        Stop::Memory => 6,
    }
}

fn status_of(alloc: Global, outcome: &Outcome) -> Result<u8, Memory>
    ensures { IfOk result (λ status. status ≡ outcome_status outcome.now) }
{
    match outcome {
        Outcome::Replayed { verdict, .. } => Ok(verdict_status(*verdict)),
        Outcome::Signed(report) => report_status(alloc, report),
        Outcome::Demonstrated { report, .. } => report_status(alloc, report),
        Outcome::Stopped(stop) => Ok(stop_status(stop)),
    }
}

/// What the outcome writes, and its status.
fn ending_of(alloc: Global, outcome: &Outcome) -> Result<(Text, u8), Memory>
    ensures text { IfOk result (λ ending. ending.0 ≡ outcome_text outcome.now) }
    ensures status { IfOk result (λ ending. ending.1 ≡ outcome_status outcome.now) }
{
    let text = outcome_text(alloc, outcome)?;
    let status = status_of(alloc, outcome)?;
    Ok((text, status))
}

fn report_of(outcome: Outcome) -> Option<Report>
    ensures { result ≡ outcome_report outcome }
{
    match outcome {
        Outcome::Signed(report) => Some(report),
        Outcome::Demonstrated { report, .. } => Some(report),
        Outcome::Replayed { .. } | Outcome::Stopped(_) => None,
    }
}

/// Writes the text; the answer is the status, and 5 where the sink fails.
fn write_text<K: Sink>(out: &mut K, text: &[u8], status: u8) -> u8
    ensures writes { Writes text.now status result (K.written out.old) (K.written out.new)
        (K.faults out.old) (K.faults out.new) }
    ensures later { K.faults out.old ≤ K.faults out.new }
{
    match write_whole(out, text) {
        Ok(()) => status,
        Err(_) => 5,
    }
}

/// Writes the outcome's text, and answers its status and its report. The text is made whole before its first byte is
/// written; want of memory for it is an outcome of its own.
pub fn finish<K: Sink>(alloc: Global, outcome: Outcome, out: &mut K) -> Ran
    ensures ends { (o : Outcomes) × ((o ≡ outcome) ⊎ (o ≡ Stopped stop.Memory))
        × (result.report ≡ outcome_report o)
        × Ends o result.status (K.written out.old) (K.written out.new) (K.faults out.old)
        (K.faults out.new) }
    ensures later { K.faults out.old ≤ K.faults out.new }
{
    match ending_of(alloc, &outcome) {
        Ok((text, status)) => Ran {
            status: write_text(out, text.bytes(), status),
            report: report_of(outcome),
        },
        Err(Memory) => Ran {
            status: memory_run(out),
            report: None,
        },
    }
}

/// Where there is no memory for the words themselves: writes that, and answers its status.
pub fn memory_run<K: Sink>(out: &mut K) -> u8
    ensures ends { Ends (Stopped stop.Memory) result (K.written out.old) (K.written out.new)
        (K.faults out.old) (K.faults out.new) }
    ensures later { K.faults out.old ≤ K.faults out.new }
{
    write_text(out, b"fault: memory\n", 6)
}
