//! The search at one top: what breaks the property there is blocked, and then the top rises, unless what is known covers the
//! property by then. Where the top is high, a look at random runs comes before the search goes on.

ghost use Rattle.std.specs.Prelude.{◌≡◌, ◌<◌, length, true, false, IfOk};
ghost use Rattle.std.specs.Bool.{OnTrue};
ghost use Rattle.ja_base.specs.Invariants.{Covers};
ghost use Rattle.ja_outside.specs.Flags.{IsPolled, IsFoundRaised};
ghost use Rattle.aig_model.specs.Netlist.{circuit};
ghost use Rattle.aig_model.specs.Task.{problem};
ghost use Rattle.sat_plain.specs.Ticks.{IsLater};
ghost use Rattle.ic3_query.specs.Endings.{IsCharged, OnStopped};
ghost use Rattle.ic3_query.specs.Known.{all_of};
ghost use Rattle.ic3_query.specs.Questions.{IsRoom};
ghost use Rattle.ic3_general.specs.Aims.{IsAim};
ghost use Rattle.ic3_engine.specs.Climbing.{IsAscent, IsEngine};
ghost use Rattle.ic3_engine.specs.Knowing.{IsBreak};
ghost use Rattle.ic3_engine.specs.Turns.{state};

use crate::climbing::climb;
use crate::covering::cover;
use crate::outcome::Ascent;
use crate::search::Search;
use crate::simulating::sighted;
use ic3_general::Aim;
use ic3_oblig::Queue;
use ic3_query::{Halt, ask_bad};
use ja_base::Meter;
use ja_outside::Flag;
use ja_project::{Coded, ResetTable};
use sat_plain::Probe;
use std::alloc::Global;

/// Whether what is known covers the property: at the level above the top nothing else counts. Where it does not, `vals` of the room
/// has the values of a step that breaks it.
pub(crate) fn known_covers<S: Probe, F: Flag>(
    alloc: Global,
    coded: &Coded,
    prop: u32,
    z: &mut Search<S>,
    meter: &mut Meter,
    flag: &mut F,
) -> Result<bool, Halt>
    requires within { prop < length coded.now.design.bads }
    requires engine { IsEngine coded.now (state z.old.known z.old.frames z.old.queue
        (S.count z.old.solver) (S.added z.old.solver)) }
    requires room { IsRoom coded.now.design z.old.room.row z.old.room.vals }
    ensures engine { IsEngine coded.now (state z.new.known z.new.frames z.new.queue
        (S.count z.new.solver) (S.added z.new.solver)) }
    ensures covers { IfOk result (λ covered. covered ≡ true
        → Covers (circuit coded.now.design) (all_of z.new.known) prop) }
    ensures breaks { IfOk result (λ covered. covered ≡ false
        → IsBreak (circuit coded.now.design) prop z.new.room.vals) }
    ensures known { z.new.known ≡ z.old.known }
    ensures frames { z.new.frames ≡ z.old.frames }
    ensures queue { z.new.queue ≡ z.old.queue }
    ensures room { IsRoom coded.now.design z.new.room.row z.new.room.vals }
    ensures charged { IsCharged meter.old meter.new result }
    ensures later { IsLater meter.old meter.new }
    ensures stopped { OnStopped result (IsFoundRaised F.may_rise F.raised flag.old flag.new) }
    ensures flag { IsPolled F.may_rise F.raised flag.old flag.new }
{
    z.frames.are_levels();
    let above = z.frames.top() + 1;
    let breaks = ask_bad(
        alloc,
        coded,
        prop,
        &mut z.solver,
        &z.frames,
        &z.known,
        above,
        &mut z.room,
        meter,
        flag,
    )?;
    Ok(!breaks)
}

/// No level is looked at again where what was learnt for good covers the property.
pub(crate) fn ascend<S: Probe, F: Flag>(
    alloc: Global,
    coded: &Coded,
    table: &ResetTable,
    aim: &Aim,
    z: &mut Search<S>,
    meter: &mut Meter,
    flag: &mut F,
) -> Result<Ascent, Halt>
    requires table { table.now ≡ coded.now.design }
    requires aim { IsAim coded.now aim.now }
    requires engine { IsEngine coded.now (state z.old.known z.old.frames z.old.queue
        (S.count z.old.solver) (S.added z.old.solver)) }
    requires room { IsRoom coded.now.design z.old.room.row z.old.room.vals }
    ensures ascent { IfOk result (IsAscent coded.now aim.now z.old.frames.top
        (state z.new.known z.new.frames z.new.queue (S.count z.new.solver)
        (S.added z.new.solver))) }
    ensures task { problem z.new.known.task ≡ problem coded.now }
    ensures room { IsRoom coded.now.design z.new.room.row z.new.room.vals }
    ensures charged { IsCharged meter.old meter.new result }
    ensures later { IsLater meter.old meter.new }
    ensures stopped { OnStopped result (IsFoundRaised F.may_rise F.raised flag.old flag.new) }
    ensures flag { IsPolled F.may_rise F.raised flag.old flag.new }
{
    z.queue = Queue::new(alloc);
    if let Some(failure) = cover(alloc, coded, table, aim, z, meter, flag)? {
        return Ok(Ascent::Failed(failure));
    }
    if known_covers(alloc, coded, aim.prop, z, meter, flag)? {
        return Ok(Ascent::Covered);
    }
    if climb(alloc, coded, aim.prop, z, meter, flag)? {
        return Ok(Ascent::Covered);
    }
    match sighted(alloc, coded, aim, z.frames.top())? {
        Some(failure) => Ok(Ascent::Failed(failure)),
        None => Ok(Ascent::Higher),
    }
}
