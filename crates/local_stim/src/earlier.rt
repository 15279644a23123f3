//! The steps of a stimulus before its last.

ghost use Rattle.std.specs.Prelude.{◌≡◌, ◌≢◌, ◌+◌, ◌<◌, ◌↔◌, length, None, All, IsTrue, MatchOption};
ghost use Rattle.ja_base.specs.Valuation.{MeetsConstraints, AssumptionsHold};
ghost use Rattle.ja_base.specs.Runs.{IsInitial};
ghost use Rattle.ja_base.specs.Replay.{IsLeast};
ghost use Rattle.aig_model.specs.Netlist.{circuit, IsSound};
ghost use Rattle.aig_model.specs.Task.{problem};
ghost use Rattle.aig_eval.specs.Run.{Fits};
ghost use Rattle.local_stim.specs.Steps.{BreaksAssumption, IsEarlier, GoesOn};

use crate::checks::{first_assumed_broken, meets_constraints};
use aig_eval::Runner;
use aig_model::{Stimulus, Task};
use ja_base::Row;

/// A step that breaks an assumed property, and the least one that it breaks.
#[derive(Clone, Copy)]
pub(crate) struct Broken {
    pub step: u32,
    pub prop: u32,
}

/// What the steps before the last say.
#[derive(Clone, Copy)]
pub(crate) enum Earlier {
    /// A constraint is 0 at this step, and at no step before.
    Leaves { step: u32 },
    /// No constraint is 0. This is the first break of an assumed property.
    Stays { broken: Option<Broken> },
}

/// Takes all steps but the last, or ends where a constraint is 0: no later row changes that verdict.
pub(crate) fn take_earlier(task: &Task, stim: &Stimulus, runner: &mut Runner) -> Earlier
    requires sound { IsSound task.now.design }
    requires initial { IsInitial (circuit task.now.design) stim.now.first }
    requires rows { All (λ row. length row ≡ length task.now.design.inputs) stim.now.inputs }
    requires fits { Fits (circuit task.now.design) runner.old }
    requires starts { runner.old.state ≡ stim.now.first }
    ensures earlier { IsEarlier (problem task.now) stim.now runner.new.state result }
    ensures fits { Fits (circuit task.now.design) runner.new }
{
    let mut broken = None;
    for step in 0..stim.inputs().len() - 1 {
        if !take_step(task, stim, step, runner) {
            return Earlier::Leaves { step };
        }
        broken = first_break(task, runner.vals(), step, broken);
    }
    Earlier::Stays { broken }
}

/// Takes a step, and says whether it meets the constraints.
pub(crate) fn take_step(task: &Task, stim: &Stimulus, step: u32, runner: &mut Runner) -> bool
    requires step { step < length stim.now.inputs }
    requires rows { All (λ row. length row ≡ length task.now.design.inputs) stim.now.inputs }
    requires fits { Fits (circuit task.now.design) runner.old }
    ensures run { GoesOn (circuit task.now.design) stim.now step runner.old runner.new }
    ensures fits { Fits (circuit task.now.design) runner.new }
    ensures meets { IsTrue result ↔ MeetsConstraints (circuit task.now.design) runner.new.values }
{
    let design = task.design();
    runner.step(design, stim.inputs().get(step));
    meets_constraints(design, runner.vals())
}

// Once a break is found, later steps are not looked at.
fn first_break(task: &Task, vals: &Row, step: u32, before: Option<Broken>) -> Option<Broken>
    requires { length vals.now ≡ task.now.design.vars + 1 }
    ensures found { before ≢ None → result ≡ before }
    ensures here { before ≡ None → MatchOption result
        (AssumptionsHold (circuit task.now.design) task.now.expected vals.now)
        (λ b. (b.step ≡ step) × IsLeast (BreaksAssumption (problem task.now) vals.now) b.prop) }
{
    if before.is_some() {
        return before;
    }
    match first_assumed_broken(task, vals) {
        Some(prop) => Some(Broken { step, prop }),
        None => None,
    }
}
