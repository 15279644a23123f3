//! The properties of a task in order.

ghost use Rattle.std.specs.Prelude.{◌≡◌, ◌+◌, ◌<◌, Bool, ℕ, List, length, map, IfOk};
ghost use Rattle.aig_model.specs.Task.{problem};
ghost use Rattle.job_plan.specs.Plans.{IsPlan};
ghost use Rattle.job_plan.specs.Depths.{rank_of, AreRanks};

use crate::depths::{depth_of, depths};
use aig_model::Task;
use ja_base::Memory;
use std::alloc::Global;
use store_core::Plan;

/// Whether it is expected to fail, its depth, its number.
type Rank = (bool, u32, u32);

fn rank(task: &Task, depths: &[u32], prop: u32) -> Rank
    requires within { prop < length task.now.design.bads }
    requires depths { length depths.now ≡ task.now.design.vars + 1 }
    ensures { result ≡ rank_of (problem task.now) depths.now prop }
{
    let depth = depth_of(depths, task.design().bad(prop));
    (!task.expect().is_assumed(prop), depth, prop)
}

fn ranks(alloc: Global, task: &Task, depths: &[u32]) -> Result<Vec<Rank>, Memory>
    requires { length depths.now ≡ task.now.design.vars + 1 }
    ensures { IfOk result (λ ranks. AreRanks (problem task.now) depths.now
        (length task.now.design.bads) ranks.items) }
{
    let mut ranks = Vec::with_capacity(alloc, task.design().props() as usize)?;
    for prop in 0..task.design().props() {
        ranks.push_reserved(rank(task, depths, prop));
    }
    Ok(ranks)
}

fn props_of(alloc: Global, ranks: &[Rank]) -> Result<Plan, Memory>
    ensures { IfOk result (λ plan. plan ≡ map (λ (r : Bool × ℕ × ℕ). r.2) ranks.now) }
{
    let mut plan = Plan::new(alloc);
    for rank in ranks {
        plan.push(rank.2)?;
    }
    Ok(plan)
}

/// Those that are expected to hold first, then by the depth of the bad literal, then by number. It is linear in the design, but
/// for the sort of the properties.
pub fn plan(alloc: Global, task: &Task) -> Result<Plan, Memory>
    ensures { IfOk result (IsPlan (problem task.now)) }
{
    let depths = depths(alloc, task.design())?;
    let mut ranks = ranks(alloc, task, depths.as_slice())?;
    ranks.sort_unstable();
    let plan = props_of(alloc, ranks.as_slice())?;
    Ok(plan)
}
