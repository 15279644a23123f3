//! One turn of a descent: a cube is blocked, or gives way to one that leads to it.

ghost use Rattle.std.specs.Prelude.{◌≡◌, ◌-◌, ◌+◌, ◌<◌, ◌≤◌, ◌++◌, ◌∷◌, [], true, false, ℕ, length, IfOk, OnOk, OnErr};
ghost use Rattle.std.specs.List.{list_any};
ghost use Rattle.ja_base.specs.Clauses.{is_part};
ghost use Rattle.ja_base.specs.Invariants.{latch_value};
ghost use Rattle.ja_base.specs.Valuation.{IsValuation, MeetsConstraints, AssumptionsHold, latch_row, input_row, next_state};
ghost use Rattle.ja_outside.specs.Flags.{IsPolled, IsFoundRaised};
ghost use Rattle.aig_model.specs.Netlist.{circuit};
ghost use Rattle.aig_model.specs.Task.{VerificationTask, problem};
ghost use Rattle.sat_plain.specs.Ticks.{IsLater};
ghost use Rattle.ja_project.specs.Latches.{is_foreign};
ghost use Rattle.ja_project.specs.Start.{starts};
ghost use Rattle.ic3_frames.specs.Levels.{is_blocked};
ghost use Rattle.ic3_query.specs.Endings.{IsCharged, OnStopped};
ghost use Rattle.ic3_query.specs.Known.{all_of};
ghost use Rattle.ic3_query.specs.Questions.{IsKeptAt, IsRoom};
ghost use Rattle.ic3_engine.specs.Searching.{HasClosed};
ghost use Rattle.ic3_engine.specs.Waiting.{AreWaiting, IsWaiting};
ghost use Rattle.ic3_engine.specs.Turns.{Blocks, IsSearching, state};
ghost use Rattle.ic3_engine.specs.Answers.{IsTurn};
ghost use Rattle.ic3_engine.specs.Lowering.{IsLowering};
ghost use Rattle.ic3_general.specs.Aims.{IsAim, LeadsOn};
ghost use Rattle.ic3_general.specs.declared.aim.Aim.{Aim as AimValue};

use crate::good::for_good;
use crate::outcome::Turn;
use crate::search::Search;
use crate::settling::{settle, settle_good};
use ic3_general::{Aim, failure_of, lifted, shrink};
use ic3_oblig::{Obligation, Queue};
use ic3_query::{Asked, Halt, ask};
use ja_base::{Clause, Memory, Meter, Row};
use ja_outside::Flag;
use ja_project::{Coded, ResetTable};
use sat_plain::Probe;
use std::alloc::Global;

/// A cube that was blocked waits again one level higher, if there is one.
fn put_again(queue: &mut Queue, top: u32, now: Obligation) -> Result<(), Memory>
    ensures waiting { (t : VerificationTask) (a : AimValue) → IsWaiting t a top now
        → AreWaiting t a top queue.old → AreWaiting t a top queue.new }
    ensures longer { length queue.new ≤ length queue.old + 1 }
{
    if now.level < top {
        queue.put(Obligation {
            level: now.level + 1,
            clause: now.clause,
            chain: now.chain,
        })?;
    }
    Ok(())
}

/// The cube of a step that leads into the waiting one: a failure where an initial row is in it, and else what is to be blocked
/// first, while the other waits. `vals` has the values of the step.
fn lower(
    alloc: Global,
    coded: &Coded,
    table: &ResetTable,
    aim: &Aim,
    queue: &mut Queue,
    vals: &Row,
    now: Obligation,
) -> Result<Turn, Memory>
    requires aim { IsAim coded.now aim.now }
    requires table { table.now ≡ coded.now.design }
    requires low { 1 ≤ now.level }
    requires leads { LeadsOn coded.now aim.now now.clause now.chain }
    requires step { IsValuation (circuit coded.now.design)
        (latch_row (circuit coded.now.design) vals.now)
        (input_row (circuit coded.now.design) vals.now) vals.now }
    requires constrained { MeetsConstraints (circuit coded.now.design) vals.now }
    requires held { AssumptionsHold (circuit coded.now.design) coded.now.expected vals.now }
    requires later { list_any (latch_value (circuit coded.now.design).latches
        (next_state (circuit coded.now.design) vals.now)) now.clause ≡ false }
    ensures turn { IfOk result
        (IsLowering coded.now aim.now now queue.old queue.new vals.now) }
{
    let _task = coded.task();
    let earlier = lifted(alloc, coded, aim, vals, &now.clause, &now.chain)?;
    if !table.starts(&earlier.clause) {
        let failure = failure_of(alloc, coded, table, aim, &earlier.clause, &earlier.chain)?;
        return Ok(Turn::Failed(failure));
    }
    let level = now.level - 1;
    queue.put(now)?;
    Ok(Turn::Lower(Obligation {
        level,
        clause: earlier.clause,
        chain: earlier.chain,
    }))
}

/// A part of the clause that is kept from the level below is settled: for good if it is inductive with what is known, and else at
/// the level.
fn finish<S: Probe, F: Flag>(
    alloc: Global,
    coded: &Coded,
    table: &ResetTable,
    aim: &Aim,
    z: &mut Search<S>,
    part: Clause,
    now: Obligation,
    meter: &mut Meter,
    flag: &mut F,
) -> Result<(), Halt>
    requires table { table.now ≡ coded.now.design }
    requires search { IsSearching coded.now aim.now
        (state z.old.known z.old.frames z.old.queue (S.count z.old.solver)
        (S.added z.old.solver)) }
    requires room { IsRoom coded.now.design z.old.room.row z.old.room.vals }
    requires waits { IsWaiting coded.now aim.now z.old.frames.top now }
    requires free { is_blocked z.old.frames.kept now.level now.clause ≡ false }
    requires part { is_part part now.clause ≡ true }
    requires own { is_foreign (circuit coded.now.design) part ≡ false }
    requires begins { starts (circuit coded.now.design) part ≡ true }
    requires kept { IsKeptAt coded.now (all_of z.old.known) z.old.frames (now.level - 1) part }
    ensures blocks { OnOk result (Blocks coded.now aim.now 1
        (state z.old.known z.old.frames z.old.queue (S.count z.old.solver)
        (S.added z.old.solver)) (state z.new.known z.new.frames z.new.queue (S.count z.new.solver)
        (S.added z.new.solver))) }
    ensures room { IsRoom coded.now.design z.new.room.row z.new.room.vals }
    ensures closed { HasClosed z.old.known z.new.known }
    ensures charged { IsCharged meter.old meter.new result }
    ensures later { IsLater meter.old meter.new }
    ensures stopped { OnStopped result (IsFoundRaised F.may_rise F.raised flag.old flag.new) }
    ensures flag { IsPolled F.may_rise F.raised flag.old flag.new }
{
    match for_good(
        alloc,
        coded,
        table,
        &mut z.solver,
        &z.frames,
        &z.known,
        &part,
        &mut z.room,
        meter,
        flag,
    )? {
        Some(less) => {
            settle_good(
                alloc,
                coded,
                &mut z.solver,
                &mut z.frames,
                &mut z.known,
                less,
            )?;
            Ok(())
        }
        None => {
            settle(
                alloc,
                coded,
                &mut z.solver,
                &mut z.frames,
                &z.known,
                part,
                now.level,
            )?;
            put_again(&mut z.queue, z.frames.top(), now)?;
            Ok(())
        }
    }
}

/// The cube is asked for at the level below its own.
fn at_level<S: Probe, F: Flag>(
    alloc: Global,
    coded: &Coded,
    table: &ResetTable,
    aim: &Aim,
    z: &mut Search<S>,
    now: Obligation,
    meter: &mut Meter,
    flag: &mut F,
) -> Result<Turn, Halt>
    requires table { table.now ≡ coded.now.design }
    requires aim { IsAim coded.now aim.now }
    requires search { IsSearching coded.now aim.now
        (state z.old.known z.old.frames z.old.queue (S.count z.old.solver)
        (S.added z.old.solver)) }
    requires room { IsRoom coded.now.design z.old.room.row z.old.room.vals }
    requires waits { IsWaiting coded.now aim.now z.old.frames.top now }
    requires free { is_blocked z.old.frames.kept now.level now.clause ≡ false }
    ensures turn { IfOk result (IsTurn coded.now aim.now now.level
        (state z.old.known z.old.frames z.old.queue (S.count z.old.solver)
        (S.added z.old.solver)) (state z.new.known z.new.frames z.new.queue (S.count z.new.solver)
        (S.added z.new.solver))) }
    ensures room { IsRoom coded.now.design z.new.room.row z.new.room.vals }
    ensures closed { HasClosed z.old.known z.new.known }
    ensures charged { IsCharged meter.old meter.new result }
    ensures later { IsLater meter.old meter.new }
    ensures stopped { OnStopped result (IsFoundRaised F.may_rise F.raised flag.old flag.new) }
    ensures flag { IsPolled F.may_rise F.raised flag.old flag.new }
{
    let _task = coded.task();
    match ask(
        alloc,
        coded,
        &mut z.solver,
        &z.frames,
        &z.known,
        now.level - 1,
        &now.clause,
        &mut z.room,
        meter,
        flag,
    )? {
        Asked::Before => {
            let turn = lower(alloc, coded, table, aim, &mut z.queue, &z.room.vals, now)?;
            Ok(turn)
        }
        Asked::Blocked(core) => {
            let part = shrink(
                alloc,
                coded,
                table,
                &mut z.solver,
                &z.frames,
                &z.known,
                now.level - 1,
                &now.clause,
                &core,
                &mut z.room,
                meter,
                flag,
            )?;
            finish(alloc, coded, table, aim, z, part, now, meter, flag)?;
            Ok(Turn::Done)
        }
    }
}

/// The cube is blocked for good, or at its level, or gives way to one that leads to it.
pub(crate) fn take_turn<S: Probe, F: Flag>(
    alloc: Global,
    coded: &Coded,
    table: &ResetTable,
    aim: &Aim,
    z: &mut Search<S>,
    now: Obligation,
    meter: &mut Meter,
    flag: &mut F,
) -> Result<Turn, Halt>
    requires table { table.now ≡ coded.now.design }
    requires aim { IsAim coded.now aim.now }
    requires search { IsSearching coded.now aim.now
        (state z.old.known z.old.frames z.old.queue (S.count z.old.solver)
        (S.added z.old.solver)) }
    requires room { IsRoom coded.now.design z.old.room.row z.old.room.vals }
    requires waits { IsWaiting coded.now aim.now z.old.frames.top now }
    requires free { is_blocked z.old.frames.kept now.level now.clause ≡ false }
    ensures turn { IfOk result (IsTurn coded.now aim.now now.level
        (state z.old.known z.old.frames z.old.queue (S.count z.old.solver)
        (S.added z.old.solver)) (state z.new.known z.new.frames z.new.queue (S.count z.new.solver)
        (S.added z.new.solver))) }
    ensures room { IsRoom coded.now.design z.new.room.row z.new.room.vals }
    ensures closed { HasClosed z.old.known z.new.known }
    ensures charged { IsCharged meter.old meter.new result }
    ensures later { IsLater meter.old meter.new }
    ensures stopped { OnStopped result (IsFoundRaised F.may_rise F.raised flag.old flag.new) }
    ensures flag { IsPolled F.may_rise F.raised flag.old flag.new }
{
    match for_good(
        alloc,
        coded,
        table,
        &mut z.solver,
        &z.frames,
        &z.known,
        &now.clause,
        &mut z.room,
        meter,
        flag,
    )? {
        Some(part) => {
            settle_good(
                alloc,
                coded,
                &mut z.solver,
                &mut z.frames,
                &mut z.known,
                part,
            )?;
            Ok(Turn::Done)
        }
        None => {
            let turn = at_level(alloc, coded, table, aim, z, now, meter, flag)?;
            Ok(turn)
        }
    }
}
