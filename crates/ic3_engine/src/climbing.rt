//! Where the top is covered: a fixed level ends the search, and else the top rises.

ghost use Rattle.std.specs.Prelude.{◌≡◌, ◌+◌, ◌^◌, ◌<◌, ◌≤◌, [], length, IfOk};
ghost use Rattle.ja_outside.specs.Flags.{IsPolled, IsFoundRaised};
ghost use Rattle.aig_model.specs.Task.{problem};
ghost use Rattle.sat_plain.specs.Ticks.{IsLater};
ghost use Rattle.ic3_query.specs.Endings.{IsCharged, OnStopped};
ghost use Rattle.ic3_query.specs.Known.{all_of};
ghost use Rattle.ic3_query.specs.Questions.{IsGoodFrom, IsRoom};
ghost use Rattle.ic3_engine.specs.Climbing.{Climbs, IsEngine};
ghost use Rattle.ic3_engine.specs.Searching.{HasClosed};
ghost use Rattle.ic3_engine.specs.Turns.{state};

use crate::fixing::fix;
use crate::raising::raise;
use crate::search::Search;
use ic3_query::Halt;
use ja_base::Meter;
use ja_outside::Flag;
use ja_project::Coded;
use sat_plain::Probe;
use std::alloc::Global;

/// A fixed level, before or after the top rises, gives what covers the property; else the top is one higher.
pub(crate) fn climb<S: Probe, F: Flag>(
    alloc: Global,
    coded: &Coded,
    prop: u32,
    z: &mut Search<S>,
    meter: &mut Meter,
    flag: &mut F,
) -> Result<bool, Halt>
    requires within { prop < length coded.now.design.bads }
    requires engine { IsEngine coded.now (state z.old.known z.old.frames z.old.queue
        (S.count z.old.solver) (S.added z.old.solver)) }
    requires empty { z.old.queue ≡ [] }
    requires room { IsRoom coded.now.design z.old.room.row z.old.room.vals }
    requires good { IsGoodFrom coded.now (all_of z.old.known) z.old.frames z.old.frames.top
        prop }
    ensures climbs { IfOk result (Climbs coded.now prop
        (state z.old.known z.old.frames z.old.queue (S.count z.old.solver)
        (S.added z.old.solver))
        (state z.new.known z.new.frames z.new.queue (S.count z.new.solver)
        (S.added z.new.solver))) }
    ensures room { IsRoom coded.now.design z.new.room.row z.new.room.vals }
    ensures closed { HasClosed z.old.known z.new.known }
    ensures charged { IsCharged meter.old meter.new result }
    ensures later { IsLater meter.old meter.new }
    ensures stopped { OnStopped result (IsFoundRaised F.may_rise F.raised flag.old flag.new) }
    ensures flag { IsPolled F.may_rise F.raised flag.old flag.new }
{
    if let Some(level) = z.frames.fixed() {
        fix(alloc, coded, prop, z, level)?;
        return Ok(true);
    }
    raise(alloc, coded, z, meter, flag)?;
    if let Some(level) = z.frames.fixed() {
        fix(alloc, coded, prop, z, level)?;
        return Ok(true);
    }
    Ok(false)
}
