//! The engine: one value that lives on from property to property.

ghost use Rattle.std.specs.Prelude.{◌≡◌, ◌+◌, ◌<◌, true, false, length, IfOk, IfSome, OnOk};
ghost use Rattle.ja_outside.specs.Flags.{IsPolled, IsFoundRaised};
ghost use Rattle.aig_model.specs.Task.{problem};
ghost use Rattle.sat_plain.specs.Ticks.{IsLater};
ghost use Rattle.ic3_query.specs.Endings.{IsCharged, OnStopped};
ghost use Rattle.inv_cert.specs.Queries.{cover_clauses};
ghost use Rattle.ic3_query.specs.Known.{all_of};
ghost use Rattle.ic3_query.specs.Questions.{IsRoom};
ghost use Rattle.ic3_engine.specs.Climbing.{IsEngine};
ghost use Rattle.ic3_engine.specs.Engines.{IsReadyFor};
ghost use Rattle.ic3_engine.specs.Found.{IfFails, IsFound, IsFoundOn, noted, noted_answer};
ghost use Rattle.ic3_general.specs.Aims.{IsAim};
ghost use Rattle.ic3_engine.specs.Turns.{state};

use crate::aiming::aim_at;
use crate::closing::give;
use crate::found::Found;
use crate::search::Search;
use crate::seeking::seek;
use crate::share::Share;
use crate::starting::{start_again, start_from};
use ic3_general::Aim;
use ic3_query::{Certifier, Halt, Known, first_solver};
use inv_cert::Closed;
use ja_base::{ClosedSet, Memory, Meter, Row};
use ja_outside::Flag;
use ja_project::{Coded, ResetTable};
use sat_plain::{Probe, Sat};
use std::alloc::Global;

/// What is known stays right whatever a call answers. Solver and levels are made anew where the last call ended without an
/// answer: then `live` is not set.
#[derive(Drop)]
pub struct Engine<S: Drop, L: Sat> {
    pub search: Search<S>,
    pub certifier: Certifier<L>,
    pub table: ResetTable,
    /// The properties of which a failure was found.
    pub failed: Row,
    pub live: bool,
}

impl<S: Sat, L: Sat> Engine<S, L> {
    /// An engine that knows the clauses of the list.
    pub fn new(alloc: Global, coded: &Coded, view: &Closed) -> Result<Engine<S, L>, Memory>
        requires { problem view.now.task ≡ problem coded.now }
        ensures { IfOk result (IsReadyFor S.count S.added coded.now) }
    {
        let known = Known::of(alloc, view.copy(alloc)?);
        let solver: S = first_solver(alloc, coded, &known)?;
        let engine = engine_over(alloc, coded, solver, known)?;
        Ok(engine)
    }
}

/// An engine over a solver that has the design and what is known.
pub(crate) fn engine_over<S: Sat, L: Sat>(
    alloc: Global,
    coded: &Coded,
    solver: S,
    known: Known,
) -> Result<Engine<S, L>, Memory>
    requires task { problem known.task ≡ problem coded.now }
    requires count { S.count solver ≡ coded.now.design.vars + 1 }
    requires added { S.added solver ≡ cover_clauses coded.now (all_of known) }
    ensures ready { IfOk result (IsReadyFor S.count S.added coded.now) }
    ensures live { IfOk result (λ engine. engine.live ≡ true) }
{
    let search = start_from(alloc, coded, solver, known)?;
    Ok(Engine {
        search,
        certifier: Certifier::new(coded)?,
        table: ResetTable::new(alloc, coded.task())?,
        failed: Row::zeros(alloc, coded.task().design().props())?,
        live: true,
    })
}

/// Solver and levels are made anew, where they may not fit. The engine counts as not live until the call has its answer.
pub(crate) fn revive<S: Sat, L: Sat>(
    alloc: Global,
    coded: &Coded,
    engine: &mut Engine<S, L>,
) -> Result<(), Memory>
    requires ready { IsReadyFor S.count S.added coded.now engine.old }
    ensures engine { OnOk result (IsEngine coded.now (state engine.new.search.known
        engine.new.search.frames engine.new.search.queue (S.count engine.new.search.solver)
        (S.added engine.new.search.solver))) }
    ensures live { engine.new.live ≡ false }
    ensures top { engine.old.live ≡ true
        → engine.new.search.frames.top ≡ engine.old.search.frames.top }
    ensures known { engine.new.search.known ≡ engine.old.search.known }
    ensures table { engine.new.table ≡ engine.old.table }
    ensures failed { engine.new.failed ≡ engine.old.failed }
    ensures certifier { engine.new.certifier ≡ coded.now }
    ensures room { IsRoom coded.now.design engine.new.search.room.row
        engine.new.search.room.vals }
{
    let live = engine.live;
    engine.live = false;
    if live {
        return Ok(());
    }
    start_again(alloc, coded, &mut engine.search)?;
    Ok(())
}

/// What comes of a property: a closed list that covers it, or a failure of it.
fn found_by<S: Probe, L: Sat, F: Flag, H: Share>(
    alloc: Global,
    coded: &Coded,
    aim: &Aim,
    engine: &mut Engine<S, L>,
    meter: &mut Meter,
    flag: &mut F,
    share: &mut H,
) -> Result<Found, Halt>
    requires aim { IsAim coded.now aim.now }
    requires share { H.task share.old ≡ problem coded.now }
    requires table { engine.old.table ≡ coded.now.design }
    requires certifier { engine.old.certifier ≡ coded.now }
    requires engine { IsEngine coded.now (state engine.old.search.known
        engine.old.search.frames engine.old.search.queue (S.count engine.old.search.solver)
        (S.added engine.old.search.solver)) }
    requires room { IsRoom coded.now.design engine.old.search.room.row
        engine.old.search.room.vals }
    ensures engine { OnOk result (IsEngine coded.now (state engine.new.search.known
        engine.new.search.frames engine.new.search.queue (S.count engine.new.search.solver)
        (S.added engine.new.search.solver))) }
    ensures found { IfOk result (IsFoundOn coded.now aim.now) }
    ensures known { problem engine.new.search.known.task ≡ problem coded.now }
    ensures live { engine.new.live ≡ engine.old.live }
    ensures table { engine.new.table ≡ engine.old.table }
    ensures failed { engine.new.failed ≡ engine.old.failed }
    ensures certifier { engine.new.certifier ≡ coded.now }
    ensures room { IsRoom coded.now.design engine.new.search.room.row
        engine.new.search.room.vals }
    ensures charged { IsCharged meter.old meter.new result }
    ensures later { IsLater meter.old meter.new }
    ensures stopped { OnStopped result (IsFoundRaised F.may_rise F.raised flag.old flag.new) }
    ensures flag { IsPolled F.may_rise F.raised flag.old flag.new }
    ensures share_task { H.task share.new ≡ H.task share.old }
    ensures share_later { H.later share.old share.new }
{
    let found = seek(
        alloc,
        coded,
        &engine.table,
        aim,
        &mut engine.search,
        meter,
        flag,
        share,
    )?;
    match found {
        Some(failure) => Ok(Found::Fails(failure)),
        None => {
            let search = &mut engine.search;
            let certifier = &mut engine.certifier;
            let proved = give(alloc, coded, aim.prop, search, certifier, meter, flag)?;
            share.publish(alloc, &proved.list)?;
            Ok(Found::Proved(proved))
        }
    }
}

/// The property of a failure is one of which a failure was found.
pub(crate) fn note(failed: &mut Row, found: &Found)
    requires { IfFails found.now (λ failure. failure.prop < length failed.old) }
    ensures { failed.new ≡ noted failed.old found.now }
{
    if let Found::Fails(failure) = found {
        failed.set(failure.prop(), true);
    }
}

/// The same, where there is an answer.
pub(crate) fn note_answer(failed: &mut Row, answer: &Option<Found>)
    requires { IfSome answer.now (λ found.
        IfFails found (λ failure. failure.prop < length failed.old)) }
    ensures { failed.new ≡ noted_answer failed.old answer.now }
{
    if let Some(found) = answer {
        note(failed, found);
    }
}

/// One property on the engine, which is ready for the next at every end. The search asks an `S`, and an `L` logs the proofs of
/// what is handed out. What others proved is taken from the share where the search opens a level, and each list that was closed
/// goes to it.
pub fn prove<S: Probe, L: Sat, F: Flag, H: Share>(
    alloc: Global,
    coded: &Coded,
    prop: u32,
    engine: &mut Engine<S, L>,
    meter: &mut Meter,
    flag: &mut F,
    share: &mut H,
) -> Result<Found, Halt>
    requires share { H.task share.old ≡ problem coded.now }
    requires within { prop < length coded.now.design.bads }
    requires ready { IsReadyFor S.count S.added coded.now engine.old }
    ensures ready { IsReadyFor S.count S.added coded.now engine.new }
    ensures found { IfOk result (IsFound coded.now prop engine.old.failed) }
    ensures failed { IfOk result (λ found.
        engine.new.failed ≡ noted engine.old.failed found) }
    ensures charged { IsCharged meter.old meter.new result }
    ensures later { IsLater meter.old meter.new }
    ensures stopped { OnStopped result (IsFoundRaised F.may_rise F.raised flag.old flag.new) }
    ensures flag { IsPolled F.may_rise F.raised flag.old flag.new }
    ensures share_task { H.task share.new ≡ H.task share.old }
    ensures share_later { H.later share.old share.new }
{
    let _task = coded.task();
    revive(alloc, coded, engine)?;
    let aim = aim_at(alloc, coded, prop, &engine.failed)?;
    let found = found_by(alloc, coded, &aim, engine, meter, flag, share)?;
    note(&mut engine.failed, &found);
    engine.live = true;
    Ok(found)
}
