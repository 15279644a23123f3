//! The replay of a stimulus, which takes each input row once.

ghost use Rattle.std.specs.Prelude.{◌≡◌, ◌<◌, length, Ok, All, IfOk, OnOk};
ghost use Rattle.ja_base.specs.Runs.{IsInitial, IsLocalFailure};
ghost use Rattle.aig_model.specs.Netlist.{circuit, IsSound};
ghost use Rattle.aig_model.specs.Task.{problem};
ghost use Rattle.aig_eval.specs.Run.{Fits};
ghost use Rattle.local_stim.specs.Verdict.{IsVerdict};
ghost use Rattle.local_stim.specs.Steps.{Replays, earlier_rows};

use crate::checks::{breaks, first_reset_broken};
use crate::earlier::{Broken, Earlier, take_earlier, take_step};
use crate::verdict::Confirm;
use aig_eval::Runner;
use aig_model::{Stimulus, Task};
use ja_base::Memory;
use std::alloc::Global;

/// Whether the stimulus is a local failure of the property, or the first reason why not.
pub fn confirm(alloc: Global, task: &Task, prop: u32, stim: &Stimulus) -> Result<Confirm, Memory>
    requires property { prop < length task.now.design.bads }
    requires first { length stim.now.first ≡ length task.now.design.latches }
    requires rows { All (λ row. length row ≡ length task.now.design.inputs) stim.now.inputs }
    ensures verdict { IfOk result (IsVerdict (problem task.now) prop stim.now) }
    ensures local { result ≡ Ok Confirm.Local → IsLocalFailure (problem task.now) prop stim.now }
    ensures only { IsLocalFailure (problem task.now) prop stim.now
        → IfOk result (λ verdict. verdict ≡ Confirm.Local) }
{
    let verdict = replay(alloc, task, prop, stim)?;
    Ok(verdict)
}

fn replay(alloc: Global, task: &Task, prop: u32, stim: &Stimulus) -> Result<Confirm, Memory>
    requires property { prop < length task.now.design.bads }
    requires first { length stim.now.first ≡ length task.now.design.latches }
    requires rows { All (λ row. length row ≡ length task.now.design.inputs) stim.now.inputs }
    ensures verdict { IfOk result (IsVerdict (problem task.now) prop stim.now) }
    ensures sound { OnOk result (IsSound task.now.design) }
{
    let design = task.design();
    if let Some(latch) = first_reset_broken(design, stim.first()) {
        return Ok(Confirm::NotInitial { latch });
    }
    let mut runner = Runner::start(alloc, design, stim.first())?;
    match take_earlier(task, stim, &mut runner) {
        Earlier::Leaves { step } => Ok(Confirm::Constraint { step }),
        Earlier::Stays { broken } => Ok(take_last(task, prop, stim, &mut runner, broken)),
    }
}

fn take_last(
    task: &Task,
    prop: u32,
    stim: &Stimulus,
    runner: &mut Runner,
    broken: Option<Broken>,
) -> Confirm
    requires sound { IsSound task.now.design }
    requires property { prop < length task.now.design.bads }
    requires initial { IsInitial (circuit task.now.design) stim.now.first }
    requires rows { All (λ row. length row ≡ length task.now.design.inputs) stim.now.inputs }
    requires fits { Fits (circuit task.now.design) runner.old }
    requires earlier { Replays (problem task.now) stim.now.first (earlier_rows stim.now)
        runner.old.state broken }
    ensures { IsVerdict (problem task.now) prop stim.now result }
{
    let last = stim.inputs().len() - 1;
    if !take_step(task, stim, last, runner) {
        return Confirm::Constraint { step: last };
    }
    if !breaks(task.design(), prop, runner.vals()) {
        return Confirm::NotBad;
    }
    match broken {
        Some(found) => Confirm::Assumed {
            step: found.step,
            prop: found.prop,
        },
        None => Confirm::Local,
    }
}
