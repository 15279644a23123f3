//! One property at one top, for a caller that looks around between two of them.

ghost use Rattle.std.specs.Prelude.{◌≡◌, ◌+◌, ◌<◌, None, true, length, IfOk, IfSome, OnOk};
ghost use Rattle.ja_outside.specs.Flags.{IsPolled, IsFoundRaised};
ghost use Rattle.aig_model.specs.Task.{problem};
ghost use Rattle.sat_plain.specs.Ticks.{IsLater};
ghost use Rattle.ic3_query.specs.Endings.{IsCharged, OnStopped};
ghost use Rattle.ic3_query.specs.Questions.{IsRoom};
ghost use Rattle.ic3_general.specs.Aims.{IsAim};
ghost use Rattle.ic3_engine.specs.Climbing.{IsAscent, IsEngine};
ghost use Rattle.ic3_engine.specs.Engines.{IsReadyFor};
ghost use Rattle.ic3_engine.specs.Found.{IsFound, IsFoundOn, noted_answer};
ghost use Rattle.ic3_engine.specs.Turns.{state};

use crate::aiming::aim_at;
use crate::ascending::ascend;
use crate::closing::give;
use crate::engine::{Engine, note_answer, revive};
use crate::found::Found;
use crate::knowing::covers_for_good;
use crate::outcome::Ascent;
use ic3_general::Aim;
use ic3_query::Halt;
use ja_base::Meter;
use ja_outside::Flag;
use ja_project::Coded;
use sat_plain::{Probe, Sat};
use std::alloc::Global;

/// What comes of the property at the top, which what is known may cover already, or once cubes were blocked for good.
fn ascended<S: Probe, L: Sat, F: Flag>(
    alloc: Global,
    coded: &Coded,
    aim: &Aim,
    engine: &mut Engine<S, L>,
    meter: &mut Meter,
    flag: &mut F,
) -> Result<Ascent, Halt>
    requires aim { IsAim coded.now aim.now }
    requires table { engine.old.table ≡ coded.now.design }
    requires engine { IsEngine coded.now (state engine.old.search.known
        engine.old.search.frames engine.old.search.queue (S.count engine.old.search.solver)
        (S.added engine.old.search.solver)) }
    requires room { IsRoom coded.now.design engine.old.search.room.row
        engine.old.search.room.vals }
    ensures ascent { IfOk result (IsAscent coded.now aim.now engine.old.search.frames.top
        (state engine.new.search.known engine.new.search.frames engine.new.search.queue
        (S.count engine.new.search.solver) (S.added engine.new.search.solver))) }
    ensures known { problem engine.new.search.known.task ≡ problem coded.now }
    ensures live { engine.new.live ≡ engine.old.live }
    ensures table { engine.new.table ≡ engine.old.table }
    ensures failed { engine.new.failed ≡ engine.old.failed }
    ensures certifier { engine.new.certifier ≡ engine.old.certifier }
    ensures room { IsRoom coded.now.design engine.new.search.room.row
        engine.new.search.room.vals }
    ensures charged { IsCharged meter.old meter.new result }
    ensures later { IsLater meter.old meter.new }
    ensures stopped { OnStopped result (IsFoundRaised F.may_rise F.raised flag.old flag.new) }
    ensures flag { IsPolled F.may_rise F.raised flag.old flag.new }
{
    let search = &mut engine.search;
    if covers_for_good(alloc, coded, &engine.table, aim, search, meter, flag)? {
        return Ok(Ascent::Covered);
    }
    let ascent = ascend(alloc, coded, &engine.table, aim, search, meter, flag)?;
    Ok(ascent)
}

/// The same, with the closed list where the property is covered.
fn advanced<S: Probe, L: Sat, F: Flag>(
    alloc: Global,
    coded: &Coded,
    aim: &Aim,
    engine: &mut Engine<S, L>,
    meter: &mut Meter,
    flag: &mut F,
) -> Result<Option<Found>, Halt>
    requires aim { IsAim coded.now aim.now }
    requires table { engine.old.table ≡ coded.now.design }
    requires certifier { engine.old.certifier ≡ coded.now }
    requires engine { IsEngine coded.now (state engine.old.search.known
        engine.old.search.frames engine.old.search.queue (S.count engine.old.search.solver)
        (S.added engine.old.search.solver)) }
    requires room { IsRoom coded.now.design engine.old.search.room.row
        engine.old.search.room.vals }
    ensures engine { OnOk result (IsEngine coded.now (state engine.new.search.known
        engine.new.search.frames engine.new.search.queue (S.count engine.new.search.solver)
        (S.added engine.new.search.solver))) }
    ensures found { IfOk result (λ answer. IfSome answer (IsFoundOn coded.now aim.now)) }
    ensures rises { IfOk result (λ answer. answer ≡ None
        → engine.new.search.frames.top ≡ engine.old.search.frames.top + 1) }
    ensures known { problem engine.new.search.known.task ≡ problem coded.now }
    ensures live { engine.new.live ≡ engine.old.live }
    ensures table { engine.new.table ≡ engine.old.table }
    ensures failed { engine.new.failed ≡ engine.old.failed }
    ensures certifier { engine.new.certifier ≡ engine.old.certifier }
    ensures room { IsRoom coded.now.design engine.new.search.room.row
        engine.new.search.room.vals }
    ensures charged { IsCharged meter.old meter.new result }
    ensures later { IsLater meter.old meter.new }
    ensures stopped { OnStopped result (IsFoundRaised F.may_rise F.raised flag.old flag.new) }
    ensures flag { IsPolled F.may_rise F.raised flag.old flag.new }
{
    match ascended(alloc, coded, aim, engine, meter, flag)? {
        Ascent::Failed(failure) => Ok(Some(Found::Fails(failure))),
        Ascent::Higher => Ok(None),
        Ascent::Covered => {
            let search = &mut engine.search;
            let certifier = &mut engine.certifier;
            let proved = give(alloc, coded, aim.prop, search, certifier, meter, flag)?;
            Ok(Some(Found::Proved(proved)))
        }
    }
}

/// One property at one top of the engine. None where the top has risen: the caller may let the engine learn what others proved
/// meanwhile, and asks again. What is found is what `prove` finds.
pub fn advance<S: Probe, L: Sat, F: Flag>(
    alloc: Global,
    coded: &Coded,
    prop: u32,
    engine: &mut Engine<S, L>,
    meter: &mut Meter,
    flag: &mut F,
) -> Result<Option<Found>, Halt>
    requires within { prop < length coded.now.design.bads }
    requires ready { IsReadyFor S.count S.added coded.now engine.old }
    ensures ready { IsReadyFor S.count S.added coded.now engine.new }
    ensures found { IfOk result (λ answer. IfSome answer
        (IsFound coded.now prop engine.old.failed)) }
    ensures failed { IfOk result (λ answer.
        engine.new.failed ≡ noted_answer engine.old.failed answer) }
    ensures live { OnOk result (engine.new.live ≡ true) }
    ensures rises { IfOk result (λ answer. answer ≡ None → engine.old.live ≡ true
        → engine.new.search.frames.top ≡ engine.old.search.frames.top + 1) }
    ensures charged { IsCharged meter.old meter.new result }
    ensures later { IsLater meter.old meter.new }
    ensures stopped { OnStopped result (IsFoundRaised F.may_rise F.raised flag.old flag.new) }
    ensures flag { IsPolled F.may_rise F.raised flag.old flag.new }
{
    let _task = coded.task();
    revive(alloc, coded, engine)?;
    let aim = aim_at(alloc, coded, prop, &engine.failed)?;
    let answer = advanced(alloc, coded, &aim, engine, meter, flag)?;
    note_answer(&mut engine.failed, &answer);
    engine.live = true;
    Ok(answer)
}
