//! A local failure that was found.

ghost use Rattle.std.specs.Prelude.{◌≡◌, ◌≢◌, ◌<◌, length, All, IfOk};
ghost use Rattle.ja_base.specs.Answers.{IfRefused};
ghost use Rattle.ja_base.specs.Runs.{IsLocalFailure};
ghost use Rattle.aig_model.specs.Task.{problem};
ghost use Rattle.local_stim.specs.Verdict.{IsVerdict};

use crate::replay::confirm;
use crate::verdict::Confirm;
use aig_model::{Stimulus, Task};
use ja_base::{OrMemory, Shown};
use std::alloc::Global;
use std::marker::Model;

/// A task, a property of it, and a stimulus that is a local failure of that property. There is no other way to such a value
/// than a replay, so who has one need not look at the stimulus again.
#[derive(Drop)]
pub struct LocalFailure {
    task: Task,
    prop: u32,
    stim: Stimulus,
}

impl Model for LocalFailure {
    ghost use Rattle.ja_base.specs.Runs.{IsLocalFailure};
    ghost use Rattle.aig_model.specs.Task.{problem};
    ghost use Rattle.local_stim.specs.Found.{FoundFailure};

    ghost Value = { FoundFailure };

    ghost view = { λ f. record { task = f.task; prop = f.prop; stim = f.stim } };

    ghost invariant = { λ f. IsLocalFailure (problem f.task) f.prop f.stim };
}

impl LocalFailure {
    /// Replays the stimulus, and is refused with the verdict where it is no local failure.
    pub fn of(
        alloc: Global,
        task: &Task,
        prop: u32,
        stim: Stimulus,
    ) -> Result<LocalFailure, OrMemory<Confirm>>
        requires property { prop < length task.now.design.bads }
        requires first { length stim.first ≡ length task.now.design.latches }
        requires rows { All (λ row. length row ≡ length task.now.design.inputs) stim.inputs }
        ensures value { IfOk result
            (λ f. f ≡ record { task = task.now; prop = prop; stim = stim }) }
        ensures verdict { IfRefused result (IsVerdict (problem task.now) prop stim) }
        ensures not_local { IfRefused result (λ why. why ≢ Confirm.Local) }
        ensures never { IsLocalFailure (problem task.now) prop stim → IfRefused result (λ _. ⊥) }
    {
        match confirm(alloc, task, prop, &stim)? {
            Confirm::Local => Ok(LocalFailure {
                task: task.share()?,
                prop,
                stim,
            }),
            why => Err(OrMemory::Refused(why)),
        }
    }

    pub fn task(&self) -> &Task
        ensures { result.now ≡ self.now.task }
    {
        &self.task
    }

    pub fn prop(&self) -> u32
        ensures value { result ≡ self.now.prop }
        ensures fails { IsLocalFailure (problem self.now.task) self.now.prop self.now.stim }
    {
        self.prop
    }

    pub fn stim(&self) -> &Stimulus
        ensures { result.now ≡ self.now.stim }
    {
        &self.stim
    }
}

impl Shown for LocalFailure {
    ghost task = { λ f. problem f.task };

    ghost property = { λ f. f.prop };

    ghost stimulus = { λ f. f.stim };

    fn prop(&self) -> u32 {
        self.prop
    }
}
