//! All that waits is blocked, the lowest level first.

ghost use Rattle.std.specs.Prelude.{◌≡◌, ◌<◌, length, IfOk};
ghost use Rattle.ja_outside.specs.Flags.{IsPolled, IsFoundRaised};
ghost use Rattle.sat_plain.specs.Ticks.{IsLater};
ghost use Rattle.ic3_query.specs.Endings.{IsCharged, OnStopped};
ghost use Rattle.ic3_query.specs.Questions.{IsRoom};
ghost use Rattle.ic3_general.specs.Aims.{IsAim};
ghost use Rattle.ic3_engine.specs.Searching.{HasClosed};
ghost use Rattle.ic3_engine.specs.Waiting.{IsWaiting};
ghost use Rattle.ic3_engine.specs.Turns.{IsSearching, state};
ghost use Rattle.ic3_engine.specs.Clearing.{Clears, Passes};

use crate::descent::descend;
use crate::search::Search;
use ic3_general::Aim;
use ic3_oblig::Obligation;
use ic3_query::Halt;
use ja_base::Meter;
use ja_outside::Flag;
use ja_project::{Coded, ResetTable};
use local_stim::LocalFailure;
use sat_plain::Probe;
use std::alloc::Global;

/// A cube that waited is blocked at its level, if it is not yet.
fn pass<S: Probe, F: Flag>(
    alloc: Global,
    coded: &Coded,
    table: &ResetTable,
    aim: &Aim,
    z: &mut Search<S>,
    next: Obligation,
    meter: &mut Meter,
    flag: &mut F,
) -> Result<Option<LocalFailure>, Halt>
    requires table { table.now ≡ coded.now.design }
    requires aim { IsAim coded.now aim.now }
    requires search { IsSearching coded.now aim.now (state z.old.known z.old.frames z.old.queue
        (S.count z.old.solver) (S.added z.old.solver)) }
    requires room { IsRoom coded.now.design z.old.room.row z.old.room.vals }
    requires waits { IsWaiting coded.now aim.now z.old.frames.top next }
    ensures passes { IfOk result (Passes coded.now aim.now
        (state z.old.known z.old.frames z.old.queue (S.count z.old.solver)
        (S.added z.old.solver))
        (state z.new.known z.new.frames z.new.queue (S.count z.new.solver)
        (S.added z.new.solver))) }
    ensures room { IsRoom coded.now.design z.new.room.row z.new.room.vals }
    ensures closed { HasClosed z.old.known z.new.known }
    ensures charged { IsCharged meter.old meter.new result }
    ensures later { IsLater meter.old meter.new }
    ensures stopped { OnStopped result (IsFoundRaised F.may_rise F.raised flag.old flag.new) }
    ensures flag { IsPolled F.may_rise F.raised flag.old flag.new }
{
    if z.frames.blocks(next.level, &next.clause) {
        return Ok(None);
    }
    let found = descend(alloc, coded, table, aim, z, next, meter, flag)?;
    Ok(found)
}

/// All that waits is blocked, or a failure is found.
pub(crate) fn clear<S: Probe, F: Flag>(
    alloc: Global,
    coded: &Coded,
    table: &ResetTable,
    aim: &Aim,
    z: &mut Search<S>,
    meter: &mut Meter,
    flag: &mut F,
) -> Result<Option<LocalFailure>, Halt>
    requires table { table.now ≡ coded.now.design }
    requires aim { IsAim coded.now aim.now }
    requires search { IsSearching coded.now aim.now (state z.old.known z.old.frames z.old.queue
        (S.count z.old.solver) (S.added z.old.solver)) }
    requires room { IsRoom coded.now.design z.old.room.row z.old.room.vals }
    ensures clears { IfOk result (Clears coded.now aim.now
        (state z.old.known z.old.frames z.old.queue (S.count z.old.solver)
        (S.added z.old.solver))
        (state z.new.known z.new.frames z.new.queue (S.count z.new.solver)
        (S.added z.new.solver))) }
    ensures room { IsRoom coded.now.design z.new.room.row z.new.room.vals }
    ensures closed { HasClosed z.old.known z.new.known }
    ensures charged { IsCharged meter.old meter.new result }
    ensures later { IsLater meter.old meter.new }
    ensures stopped { OnStopped result (IsFoundRaised F.may_rise F.raised flag.old flag.new) }
    ensures flag { IsPolled F.may_rise F.raised flag.old flag.new }
{
    while let Some(next) = z.queue.take() {
        if let Some(failure) = pass(alloc, coded, table, aim, z, next, meter, flag)? {
            return Ok(Some(failure));
        }
    }
    Ok(None)
}
