//! One run under random input rows.

ghost use Rattle.std.specs.Prelude.{◌≡◌, ◌<◌, ◌≤◌, ◌+◌, length, All, IfOk, IfSome};
ghost use Rattle.ja_base.specs.Circuit.{Circuit};
ghost use Rattle.random_sim.specs.Seen.{IsSeen};

use crate::judging::{Judged, judge};
use crate::rows::{first_row, random_row};
use aig_eval::Runner;
use aig_model::{Stimulus, Task};
use ja_base::{Memory, OrMemory, Row, Rows};
use local_stim::LocalFailure;
use rand_pcg::Pcg32;
use std::alloc::Global;

/// The failure of a property by this stimulus, if the replay shows one.
fn replayed(
    alloc: Global,
    task: &Task,
    prop: u32,
    stim: Stimulus,
) -> Result<Option<LocalFailure>, Memory>
    requires prop { prop < length task.now.design.bads }
    requires first { length stim.first ≡ length task.now.design.latches }
    requires rows { All (λ row. length row ≡ length task.now.design.inputs) stim.inputs }
    ensures { IfOk result (λ found. IfSome found
        (λ failure. failure ≡ record { task = task.now; prop = prop; stim = stim })) }
{
    match LocalFailure::of(alloc, task, prop, stim) {
        Ok(failure) => Ok(Some(failure)),
        Err(OrMemory::Memory) => Err(Memory),
        Err(OrMemory::Refused(_)) => Ok(None),
    }
}

/// How a run ended, and after how many steps.
#[derive(Drop)]
pub(crate) struct Ran {
    pub(crate) failure: Option<LocalFailure>,
    pub(crate) steps: u32,
}

/// A run of at most so many steps, from a random first row. It ends at the first step that a search may not pass.
pub(crate) fn run(
    alloc: Global,
    task: &Task,
    prop: u32,
    respect: &Row,
    random: &mut Pcg32,
    most: u32,
) -> Result<Ran, Memory>
    requires prop { prop < length task.now.design.bads }
    requires wide { length respect.now ≡ length task.now.design.bads }
    requires most { 0 < most }
    ensures seen { IfOk result (λ ran. IfSome ran.failure (IsSeen task.now prop respect.now)) }
    ensures steps { IfOk result (λ ran. (0 < ran.steps) × (ran.steps ≤ most)) }
{
    let design = task.design();
    let first = first_row(alloc, random, design)?;
    let mut runner = Runner::start(alloc, design, &first)?;
    let mut rows = Rows::one(alloc, random_row(alloc, random, design.inputs())?)?;
    for at in 0..most {
        runner.step(design, rows.get(at));
        let steps = at + 1;
        match judge(task, prop, respect, runner.vals()) {
            Judged::GoesOn => rows.push(random_row(alloc, random, design.inputs())?)?,
            Judged::Ends => return Ok(Ran {
                failure: None,
                steps,
            }),
            Judged::Breaks(broken) => {
                let stim = Stimulus::new(first, rows);
                let failure = replayed(alloc, task, broken, stim)?;
                return Ok(Ran { failure, steps });
            }
        }
    }
    Ok(Ran {
        failure: None,
        steps: most,
    })
}
