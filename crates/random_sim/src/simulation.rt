//! Runs, one after the other.

ghost use Rattle.std.specs.Prelude.{◌≡◌, ◌<◌, length, IfOk, IfSome};
ghost use Rattle.random_sim.specs.Seen.{IsSeen};

use crate::running::run;
use aig_model::Task;
use ja_base::{Memory, Row};
use local_stim::LocalFailure;
use rand_pcg::Pcg32;
use std::alloc::Global;

/// The longest run, in steps.
const LONGEST: u32 = 4096;

/// Looks at runs with random input rows, of so many steps in all and at most 4,096 each, for a failure of the property or of an
/// assumed one that is not respected. A step takes one pass over the gates and the properties. The runs follow from the seed alone.
pub fn simulate(
    alloc: Global,
    task: &Task,
    prop: u32,
    respect: &Row,
    seed: u64,
    steps: u32,
) -> Result<Option<LocalFailure>, Memory>
    requires prop { prop < length task.now.design.bads }
    requires wide { length respect.now ≡ length task.now.design.bads }
    ensures { IfOk result (λ found. IfSome found (IsSeen task.now prop respect.now)) }
{
    let mut random = Pcg32::new(seed, 0);
    let mut left = steps;
    while left > 0 {
        let ran = run(alloc, task, prop, respect, &mut random, left.min(LONGEST))?;
        if ran.failure.is_some() {
            return Ok(ran.failure);
        }
        left -= ran.steps;
    }
    Ok(None)
}
