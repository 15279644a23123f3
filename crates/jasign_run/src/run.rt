//! The top call.

ghost use Rattle.std.specs.Prelude.{◌≡◌, ◌≤◌, map, string_bytes};
ghost use Rattle.jasign_run.specs.Meaning.{Means, IsQuiet, Ends};
ghost use Rattle.jasign_run.specs.Lines.{outcome_report};
ghost use Rattle.jasign_run.specs.declared.outcome.Outcome.{Outcome as Outcomes};

use crate::confirm::confirm_run;
use crate::demo::demo_run;
use crate::ending::finish;
use crate::outcome::{Outcome, Ran, Stop};
use crate::sign::sign_run;
use ja_base::OrMemory;
use ja_outside::{Gate, Shelf, Sink};
use ja_words::{Words, read_words};
use std::alloc::Global;
use std::sync::Wait;
use std::thread::Threads;

/// Does what the words say, which are those of a command line without the program's name, and writes one line, one report or
/// the summary of one. The workers of a sign-off pass the gate.
pub fn jasign_run<F: Shelf, K: Sink, G: Gate + Sync, R: Threads + Wait + Sync>(
    rt: &R,
    alloc: Global,
    words: &[String],
    shelf: &mut F,
    out: &mut K,
    gate: &G,
) -> Ran
    ensures kept { F.holds shelf.new ≡ F.holds shelf.old }
    ensures means { (o : Outcomes)
        × Means (F.holds shelf.old) (F.faults shelf.old) (F.faults shelf.new)
        (map string_bytes words.now) o
        × IsQuiet (F.faults shelf.old) (F.faults shelf.new) o
        × (result.report ≡ outcome_report o)
        × Ends o result.status (K.written out.old) (K.written out.new) (K.faults out.old)
        (K.faults out.new) }
    ensures shelf_later { F.faults shelf.old ≤ F.faults shelf.new }
    ensures sink_later { K.faults out.old ≤ K.faults out.new }
{
    match read_words(alloc, words) {
        Ok(Words::Confirm(names)) => Ran {
            status: confirm_run(alloc, names.design, names.stim, names.expect, shelf, out),
            report: None,
        },
        Ok(Words::Sign(order)) => sign_run(rt, alloc, order, shelf, out, gate),
        Ok(Words::Demo(demo)) => demo_run(rt, alloc, demo, out, gate),
        Err(OrMemory::Refused(_)) => finish(alloc, Outcome::Stopped(Stop::Usage), out),
        Err(OrMemory::Memory) => finish(alloc, Outcome::Stopped(Stop::Memory), out),
    }
}
