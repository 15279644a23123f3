//! `confirm DESIGN STIM [EXPECT]`: one stimulus is replayed.

ghost use Rattle.std.specs.Prelude.{◌≡◌, ◌≤◌, ◌<◌, length, option_map, All, IfOk};
ghost use Rattle.ja_base.specs.Runs.{Trace};
ghost use Rattle.aig_model.specs.Task.{problem};
ghost use Rattle.local_stim.specs.Verdict.{IsVerdict};
ghost use Rattle.ja_words.specs.Words.{Names as FileNames};
ghost use Rattle.jasign_run.specs.Meaning.{Confirms, Ends, IsQuiet, task_of};
ghost use Rattle.jasign_run.specs.declared.outcome.Outcome.{Outcome as Outcomes};

use crate::ending::finish;
use crate::files::{design_of, expected_of, stimulus_of};
use crate::outcome::{Outcome, Stop};
use aig_model::{Design, Expect, Stimulus, Task};
use ja_base::Memory;
use ja_outside::{Shelf, Sink};
use ja_words::Names;
use local_stim::{Confirm, confirm};
use std::alloc::Global;

/// The verdict under these expectations.
fn replay(
    alloc: Global,
    design: Design,
    expect: Expect,
    prop: u32,
    stim: &Stimulus,
) -> Result<Confirm, Memory>
    requires expected { length expect ≡ length design.bads }
    requires property { prop < length design.bads }
    requires first { length stim.now.first ≡ length design.latches }
    requires rows { All (λ row. length row ≡ length design.inputs) stim.now.inputs }
    ensures { IfOk result (IsVerdict (problem (task_of design expect)) prop stim.now) }
{
    let task = Task::new(alloc, design, expect)?;
    let verdict = confirm(alloc, &task, prop, stim)?;
    Ok(verdict)
}

fn outcome_of<F: Shelf>(alloc: Global, names: Names, shelf: &mut F) -> Outcome
    ensures kept { F.holds shelf.new ≡ F.holds shelf.old }
    ensures later { F.faults shelf.old ≤ F.faults shelf.new }
    ensures quiet { IsQuiet (F.faults shelf.old) (F.faults shelf.new) result }
    ensures means { Confirms (F.holds shelf.old) (F.faults shelf.old) (F.faults shelf.new)
        (record {
          design = names.entry.design.now;
          stim = names.entry.stim.now;
          expect = option_map (λ x. x.now) names.entry.expect;
        }) result }
{
    let design = match design_of(alloc, shelf, names.design) {
        Ok(design) => design,
        Err(stop) => return Outcome::Stopped(stop),
    };
    let (prop, stim) = match stimulus_of(alloc, shelf, names.stim, &design) {
        Ok(found) => found,
        Err(stop) => return Outcome::Stopped(stop),
    };
    let expect = match expected_of(alloc, shelf, names.expect, &design) {
        Ok(expect) => expect,
        Err(stop) => return Outcome::Stopped(stop),
    };
    let steps = stim.inputs().len();
    match replay(alloc, design, expect, prop, &stim) {
        Ok(verdict) => Outcome::Replayed {
            verdict,
            prop,
            steps,
        },
        Err(Memory) => Outcome::Stopped(Stop::Memory),
    }
}

/// Replays the stimulus that stands under one name on the design that stands under another, where each property is expected
/// to hold unless the file of expectations says that it fails; writes one line, and answers the status.
pub fn confirm_run<F: Shelf, K: Sink>(
    alloc: Global,
    design: &str,
    stim: &str,
    expect: Option<&str>,
    shelf: &mut F,
    out: &mut K,
) -> u8
    ensures kept { F.holds shelf.new ≡ F.holds shelf.old }
    ensures means { (o : Outcomes)
        × Confirms (F.holds shelf.old) (F.faults shelf.old) (F.faults shelf.new)
        (record {
          design = design.now;
          stim = stim.now;
          expect = option_map (λ x. x.now) expect.entry;
        }) o
        × IsQuiet (F.faults shelf.old) (F.faults shelf.new) o
        × Ends o result (K.written out.old) (K.written out.new) (K.faults out.old)
        (K.faults out.new) }
    ensures shelf_later { F.faults shelf.old ≤ F.faults shelf.new }
    ensures sink_later { K.faults out.old ≤ K.faults out.new }
{
    let names = Names {
        design,
        stim,
        expect,
    };
    let outcome = outcome_of(alloc, names, shelf);
    finish(alloc, outcome, out).status
}
