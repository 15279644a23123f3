//! A cube with an initial row becomes a local failure: of the property that is aimed at, or of an assumed one that the way breaks
//! before its end.

ghost use Rattle.std.specs.Prelude.{◌≡◌, ◌≢◌, ◌+◌, ◌<◌, ◌≤◌, ℕ, false, length, take, IfOk};
ghost use Rattle.ja_base.specs.Runs.{IsLocalFailure};
ghost use Rattle.aig_model.specs.Netlist.{circuit};
ghost use Rattle.aig_model.specs.Task.{problem};
ghost use Rattle.ja_project.specs.Latches.{is_foreign};
ghost use Rattle.ja_project.specs.Start.{starts};
ghost use Rattle.local_stim.specs.Verdict.{IsVerdict};
ghost use Rattle.ic3_general.specs.Aims.{IsAim, IsFailureOn, LeadsOn, respecting};

use crate::aim::Aim;
use aig_model::Stimulus;
use ja_base::{Clause, Memory, OrMemory, Row, Rows};
use ja_project::{Coded, ResetTable};
use local_stim::{Confirm, LocalFailure};
use std::alloc::Global;

/// The first so many rows.
fn beginning(alloc: Global, rows: &Rows, number: u32) -> Result<Rows, Memory>
    requires some { 0 < number }
    requires within { number ≤ length rows.now }
    ensures { IfOk result (λ front. front ≡ take number rows.now) }
{
    let mut front = Rows::one(alloc, rows.get(0).copy(alloc)?)?;
    for at in 1..number {
        front.push(rows.get(at).copy(alloc)?)?;
    }
    Ok(front)
}

/// A stimulus that is a local failure is accepted as one.
fn accepted(alloc: Global, coded: &Coded, prop: u32, stim: Stimulus) -> Result<LocalFailure, Memory>
    requires within { prop < length coded.now.design.bads }
    requires fails { IsLocalFailure (problem coded.now) prop stim }
    ensures { IfOk result
        (λ failure. failure ≡ record { task = coded.now; prop = prop; stim = stim }) }
{
    match LocalFailure::of(alloc, coded.task(), prop, stim) {
        Ok(failure) => Ok(failure),
        Err(OrMemory::Memory) => Err(Memory),
        Err(OrMemory::Refused(_)) => unreachable!(),
    }
}

/// The failure of what the way breaks before its end: the stimulus ends there.
fn broken_before(
    alloc: Global,
    coded: &Coded,
    aim: &Aim,
    first: Row,
    chain: &Rows,
    why: Confirm,
) -> Result<LocalFailure, Memory>
    requires aim { IsAim coded.now aim.now }
    requires fails { IsLocalFailure (problem (respecting coded.now aim.now.respect))
        aim.now.prop (record { first = first; inputs = chain.now }) }
    requires verdict { IsVerdict (problem coded.now) aim.now.prop
        (record { first = first; inputs = chain.now }) why }
    requires not_local { why ≢ Confirm.Local }
    ensures on { IfOk result (IsFailureOn coded.now aim.now) }
    ensures steps { IfOk result (λ failure. (steps : ℕ)
        × (failure.stim.inputs ≡ take steps chain.now)) }
{
    let _task = coded.task();
    let _rows = chain.len();
    match why {
        Confirm::Assumed { step, prop } => {
            let inputs = beginning(alloc, chain, step + 1)?;
            let failure = accepted(alloc, coded, prop, Stimulus::new(first, inputs))?;
            Ok(failure)
        }
        _ => unreachable!(),
    }
}

/// The failure whose first row is an initial one of the cube that the clause excludes, and whose inputs are the chain, up to the
/// step at which it breaks an assumed property that the aim does not respect, if there is one.
pub fn failure_of(
    alloc: Global,
    coded: &Coded,
    table: &ResetTable,
    aim: &Aim,
    clause: &Clause,
    chain: &Rows,
) -> Result<LocalFailure, Memory>
    requires aim { IsAim coded.now aim.now }
    requires table { table.now ≡ coded.now.design }
    requires own { is_foreign (circuit coded.now.design) clause.now ≡ false }
    requires begins { starts (circuit coded.now.design) clause.now ≡ false }
    requires leads { LeadsOn coded.now aim.now clause.now chain.now }
    ensures on { IfOk result (IsFailureOn coded.now aim.now) }
    ensures steps { IfOk result (λ failure. (steps : ℕ)
        × (failure.stim.inputs ≡ take steps chain.now)) }
{
    let first = table.falsifying(alloc, clause)?;
    let stim = Stimulus::new(first.copy(alloc)?, chain.copy(alloc)?);
    match LocalFailure::of(alloc, coded.task(), aim.prop, stim) {
        Ok(failure) => Ok(failure),
        Err(OrMemory::Memory) => Err(Memory),
        Err(OrMemory::Refused(why)) => broken_before(alloc, coded, aim, first, chain, why),
    }
}
