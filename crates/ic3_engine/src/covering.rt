//! The top is searched until no row of it breaks the property.

ghost use Rattle.std.specs.Prelude.{◌≡◌, ◌<◌, ℕ, [], false, length, IfOk};
ghost use Rattle.ja_base.specs.Valuation.{IsBad, IsValuation, MeetsConstraints, input_row, latch_row};
ghost use Rattle.ja_outside.specs.Flags.{IsPolled, IsFoundRaised};
ghost use Rattle.aig_model.specs.Netlist.{circuit};
ghost use Rattle.sat_plain.specs.Ticks.{IsLater};
ghost use Rattle.ic3_query.specs.Endings.{IsCharged, OnStopped};
ghost use Rattle.ic3_query.specs.Questions.{IsRoom};
ghost use Rattle.ic3_general.specs.Aims.{IsAim};
ghost use Rattle.ic3_general.specs.declared.aim.Aim.{Aim as AimValue};
ghost use Rattle.ic3_engine.specs.Searching.{HasClosed};
ghost use Rattle.ic3_engine.specs.Waiting.{IsWaiting};
ghost use Rattle.ic3_engine.specs.Turns.{IsSearching, State, state};
ghost use Rattle.aig_model.specs.Task.{VerificationTask};
ghost use Rattle.ic3_frames.specs.Soundness.{IsIn};
ghost use Rattle.ic3_engine.specs.Clearing.{Blocked, CoversTop};
ghost use Rattle.ic3_engine.specs.Covering.{IsFirst, IsRound};
ghost use Rattle.ic3_frames.specs.Levels.{is_blocked};

use crate::clearing::clear;
use crate::descent::descend;
use crate::outcome::{First, Round};
use crate::search::Search;
use ic3_general::{Aim, failure_of, lifted_bad};
use ic3_oblig::Obligation;
use ic3_query::{Halt, ask_bad};
use ja_base::{Memory, Meter, Row};
use ja_outside::Flag;
use ja_project::{Coded, ResetTable};
use local_stim::LocalFailure;
use sat_plain::Probe;
use std::alloc::Global;

/// The cube of a step at the top that breaks the property: a failure where an initial row is in it, and else what is to be
/// blocked. `vals` has the values of the step.
fn first_cube(
    alloc: Global,
    coded: &Coded,
    table: &ResetTable,
    aim: &Aim,
    top: u32,
    vals: &Row,
) -> Result<First, Memory>
    requires table { table.now ≡ coded.now.design }
    requires aim { IsAim coded.now aim.now }
    requires step { IsValuation (circuit coded.now.design)
        (latch_row (circuit coded.now.design) vals.now)
        (input_row (circuit coded.now.design) vals.now) vals.now }
    requires constrained { MeetsConstraints (circuit coded.now.design) vals.now }
    requires bad { IsBad (circuit coded.now.design) aim.now.prop vals.now }
    ensures first { IfOk result (IsFirst coded.now aim.now top vals.now) }
{
    let _task = coded.task();
    let cube = lifted_bad(alloc, coded, aim, vals)?;
    if !table.starts(&cube.clause) {
        let failure = failure_of(alloc, coded, table, aim, &cube.clause, &cube.chain)?;
        return Ok(First::Failed(failure));
    }
    Ok(First::Waits(Obligation {
        level: top,
        clause: cube.clause,
        chain: cube.chain,
    }))
}

/// The cube and all that leads to it is blocked, or a failure is found.
fn block<S: Probe, F: Flag>(
    alloc: Global,
    coded: &Coded,
    table: &ResetTable,
    aim: &Aim,
    z: &mut Search<S>,
    first: Obligation,
    meter: &mut Meter,
    flag: &mut F,
) -> Result<Option<LocalFailure>, Halt>
    requires table { table.now ≡ coded.now.design }
    requires aim { IsAim coded.now aim.now }
    requires search { IsSearching coded.now aim.now
        (state z.old.known z.old.frames z.old.queue (S.count z.old.solver)
        (S.added z.old.solver)) }
    requires room { IsRoom coded.now.design z.old.room.row z.old.room.vals }
    requires waits { IsWaiting coded.now aim.now z.old.frames.top first }
    requires free { is_blocked z.old.frames.kept first.level first.clause ≡ false }
    ensures blocked { IfOk result (Blocked coded.now aim.now
        (state z.old.known z.old.frames z.old.queue (S.count z.old.solver)
        (S.added z.old.solver)) (state z.new.known z.new.frames z.new.queue (S.count z.new.solver)
        (S.added z.new.solver))) }
    ensures room { IsRoom coded.now.design z.new.room.row z.new.room.vals }
    ensures closed { HasClosed z.old.known z.new.known }
    ensures charged { IsCharged meter.old meter.new result }
    ensures later { IsLater meter.old meter.new }
    ensures stopped { OnStopped result (IsFoundRaised F.may_rise F.raised flag.old flag.new) }
    ensures flag { IsPolled F.may_rise F.raised flag.old flag.new }
{
    match descend(alloc, coded, table, aim, z, first, meter, flag)? {
        Some(failure) => Ok(Some(failure)),
        None => {
            let found = clear(alloc, coded, table, aim, z, meter, flag)?;
            Ok(found)
        }
    }
}

/// What came of a block, as a round.
fn round_of(found: Option<LocalFailure>) -> Round
    ensures { (t : VerificationTask) (a : AimValue) (old new : State)
        → Blocked t a old new found → IsRound t a old new result }
{
    match found {
        Some(failure) => Round::Failed(failure),
        None => Round::Blocked,
    }
}

/// A cube of the top that was found: what comes of it.
fn take_first<S: Probe, F: Flag>(
    alloc: Global,
    coded: &Coded,
    table: &ResetTable,
    aim: &Aim,
    z: &mut Search<S>,
    first: First,
    meter: &mut Meter,
    flag: &mut F,
) -> Result<Round, Halt>
    requires table { table.now ≡ coded.now.design }
    requires aim { IsAim coded.now aim.now }
    requires search { IsSearching coded.now aim.now
        (state z.old.known z.old.frames z.old.queue (S.count z.old.solver)
        (S.added z.old.solver)) }
    requires room { IsRoom coded.now.design z.old.room.row z.old.room.vals }
    requires first { IsFirst coded.now aim.now z.old.frames.top z.old.room.vals first }
    requires level { IsIn (circuit coded.now.design) z.old.frames.kept z.old.frames.top
        (latch_row (circuit coded.now.design) z.old.room.vals) }
    ensures round { IfOk result (IsRound coded.now aim.now
        (state z.old.known z.old.frames z.old.queue (S.count z.old.solver)
        (S.added z.old.solver)) (state z.new.known z.new.frames z.new.queue (S.count z.new.solver)
        (S.added z.new.solver))) }
    ensures room { IsRoom coded.now.design z.new.room.row z.new.room.vals }
    ensures closed { HasClosed z.old.known z.new.known }
    ensures charged { IsCharged meter.old meter.new result }
    ensures later { IsLater meter.old meter.new }
    ensures stopped { OnStopped result (IsFoundRaised F.may_rise F.raised flag.old flag.new) }
    ensures flag { IsPolled F.may_rise F.raised flag.old flag.new }
{
    let _task = coded.task();
    match first {
        First::Failed(failure) => Ok(Round::Failed(failure)),
        First::Waits(first) => {
            let found = block(alloc, coded, table, aim, z, first, meter, flag)?;
            Ok(round_of(found))
        }
    }
}

/// One question at the top, and what comes of its answer.
fn take_round<S: Probe, F: Flag>(
    alloc: Global,
    coded: &Coded,
    table: &ResetTable,
    aim: &Aim,
    z: &mut Search<S>,
    meter: &mut Meter,
    flag: &mut F,
) -> Result<Round, Halt>
    requires table { table.now ≡ coded.now.design }
    requires aim { IsAim coded.now aim.now }
    requires search { IsSearching coded.now aim.now
        (state z.old.known z.old.frames z.old.queue (S.count z.old.solver)
        (S.added z.old.solver)) }
    requires room { IsRoom coded.now.design z.old.room.row z.old.room.vals }
    requires empty { z.old.queue ≡ [] }
    ensures round { IfOk result (IsRound coded.now aim.now
        (state z.old.known z.old.frames z.old.queue (S.count z.old.solver)
        (S.added z.old.solver)) (state z.new.known z.new.frames z.new.queue (S.count z.new.solver)
        (S.added z.new.solver))) }
    ensures room { IsRoom coded.now.design z.new.room.row z.new.room.vals }
    ensures closed { HasClosed z.old.known z.new.known }
    ensures charged { IsCharged meter.old meter.new result }
    ensures later { IsLater meter.old meter.new }
    ensures stopped { OnStopped result (IsFoundRaised F.may_rise F.raised flag.old flag.new) }
    ensures flag { IsPolled F.may_rise F.raised flag.old flag.new }
{
    let top = z.frames.top();
    if !ask_bad(
        alloc,
        coded,
        aim.prop,
        &mut z.solver,
        &z.frames,
        &z.known,
        top,
        &mut z.room,
        meter,
        flag,
    )? {
        return Ok(Round::Covered);
    }
    let first = first_cube(alloc, coded, table, aim, top, &z.room.vals)?;
    let round = take_first(alloc, coded, table, aim, z, first, meter, flag)?;
    Ok(round)
}

/// No row of the top breaks the property any more, or a failure is found. Each round before the last makes the sum of the levels
/// rise, which is bounded.
pub(crate) fn cover<S: Probe, F: Flag>(
    alloc: Global,
    coded: &Coded,
    table: &ResetTable,
    aim: &Aim,
    z: &mut Search<S>,
    meter: &mut Meter,
    flag: &mut F,
) -> Result<Option<LocalFailure>, Halt>
    requires table { table.now ≡ coded.now.design }
    requires aim { IsAim coded.now aim.now }
    requires search { IsSearching coded.now aim.now
        (state z.old.known z.old.frames z.old.queue (S.count z.old.solver)
        (S.added z.old.solver)) }
    requires room { IsRoom coded.now.design z.old.room.row z.old.room.vals }
    requires empty { z.old.queue ≡ [] }
    ensures covers { IfOk result (CoversTop coded.now aim.now
        (state z.old.known z.old.frames z.old.queue (S.count z.old.solver)
        (S.added z.old.solver)) (state z.new.known z.new.frames z.new.queue (S.count z.new.solver)
        (S.added z.new.solver))) }
    ensures room { IsRoom coded.now.design z.new.room.row z.new.room.vals }
    ensures closed { HasClosed z.old.known z.new.known }
    ensures charged { IsCharged meter.old meter.new result }
    ensures later { IsLater meter.old meter.new }
    ensures stopped { OnStopped result (IsFoundRaised F.may_rise F.raised flag.old flag.new) }
    ensures flag { IsPolled F.may_rise F.raised flag.old flag.new }
{
    loop {
        match take_round(alloc, coded, table, aim, z, meter, flag)? {
            Round::Covered => return Ok(None),
            Round::Failed(failure) => return Ok(Some(failure)),
            Round::Blocked => {}
        }
    }
}
