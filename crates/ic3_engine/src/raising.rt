//! A new top: known clauses are put there, and each clause moves up as far as one level at a time holds.

ghost use Rattle.std.specs.Prelude.{◌≡◌, ◌+◌, ◌<◌, ◌≤◌, ℕ, Bool, true, List, length, IfOk, OnOk};
ghost use Rattle.ja_outside.specs.Flags.{IsPolled, IsFoundRaised};
ghost use Rattle.aig_model.specs.Task.{VerificationTask, problem};
ghost use Rattle.sat_plain.specs.Ticks.{IsLater};
ghost use Rattle.ic3_query.specs.Endings.{IsCharged, OnStopped};
ghost use Rattle.ic3_query.specs.Known.{all_of};
ghost use Rattle.ic3_query.specs.Questions.{AnswersFor, IsKeptAt, IsRoom};
ghost use Rattle.ic3_frames.specs.Levels.{IfEntry, Levels};
ghost use Rattle.ic3_engine.specs.Raising.{IsRaised, Pushes};
ghost use Rattle.ic3_engine.specs.Searching.{IsCore, IsSearch};
ghost use Rattle.ic3_engine.specs.Turns.{state};

use crate::putting::put_known;
use crate::search::Search;
use ic3_frames::Frames;
use ic3_query::{Asked, Halt, Known, Room, ask, grow, push};
use ja_base::{Memory, Meter};
use ja_outside::Flag;
use ja_project::Coded;
use sat_plain::Probe;
use std::alloc::Global;

fn is_blocked(answer: &Asked) -> bool
    ensures { (t : VerificationTask) (known : List (List ℕ)) (f : Levels) (k : ℕ)
        (clause : List ℕ) (values : List Bool) → AnswersFor t known f k clause values answer.now
        → result ≡ true → IsKeptAt t known f k clause }
{
    matches!(answer, Asked::Blocked(_))
}

/// Whether each step from the level keeps the clause of this place.
fn is_kept<S: Probe, F: Flag>(
    alloc: Global,
    coded: &Coded,
    solver: &mut S,
    frames: &Frames,
    known: &Known,
    at: u32,
    level: u32,
    room: &mut Room,
    meter: &mut Meter,
    flag: &mut F,
) -> Result<bool, Halt>
    requires within { at < length frames.now.kept }
    requires level { level ≤ frames.now.top }
    requires core { IsCore coded.now (all_of known.now) frames.now (S.count solver.old)
        (S.added solver.old) }
    requires task { problem known.now.task ≡ problem coded.now }
    requires room { IsRoom coded.now.design room.old.row room.old.vals }
    ensures kept { IfOk result (λ kept. kept ≡ true → IfEntry frames.now.kept at
        (λ e. IsKeptAt coded.now (all_of known.now) frames.now level e.clause)) }
    ensures count { S.count solver.new ≡ S.count solver.old }
    ensures added { S.added solver.new ≡ S.added solver.old }
    ensures room { IsRoom coded.now.design room.new.row room.new.vals }
    ensures charged { IsCharged meter.old meter.new result }
    ensures later { IsLater meter.old meter.new }
    ensures stopped { OnStopped result (IsFoundRaised F.may_rise F.raised flag.old flag.new) }
    ensures flag { IsPolled F.may_rise F.raised flag.old flag.new }
{
    let clause = frames.clause(at);
    let answer = ask(
        alloc, coded, solver, frames, known, level, clause, room, meter, flag,
    )?;
    Ok(is_blocked(&answer))
}

/// The clause of this place moves from this level to the next, and each step from the level keeps it.
fn move_up<S: Probe>(
    alloc: Global,
    coded: &Coded,
    solver: &mut S,
    frames: &mut Frames,
    known: &Known,
    at: u32,
    level: u32,
) -> Result<(), Memory>
    requires within { at < length frames.old.kept }
    requires level { level < frames.old.top }
    requires stands { IfEntry frames.old.kept at (λ e. e.level ≡ level) }
    requires kept { IfEntry frames.old.kept at
        (λ e. IsKeptAt coded.now (all_of known.now) frames.old level e.clause) }
    requires core { IsCore coded.now (all_of known.now) frames.old (S.count solver.old)
        (S.added solver.old) }
    ensures top { frames.new.top ≡ frames.old.top }
    ensures pushes { OnOk result (Pushes coded.now (all_of known.now) frames.old frames.new
        (S.count solver.new) (S.added solver.new)) }
{
    push(alloc, coded, solver, frames, known, at, level + 1)?;
    Ok(())
}

/// The clause of this place moves one level up, if each step from its level keeps it.
fn push_one<S: Probe, F: Flag>(
    alloc: Global,
    coded: &Coded,
    solver: &mut S,
    frames: &mut Frames,
    known: &Known,
    at: u32,
    room: &mut Room,
    meter: &mut Meter,
    flag: &mut F,
) -> Result<(), Halt>
    requires within { at < length frames.old.kept }
    requires core { IsCore coded.now (all_of known.now) frames.old (S.count solver.old)
        (S.added solver.old) }
    requires task { problem known.now.task ≡ problem coded.now }
    requires room { IsRoom coded.now.design room.old.row room.old.vals }
    ensures pushes { OnOk result (Pushes coded.now (all_of known.now) frames.old frames.new
        (S.count solver.new) (S.added solver.new)) }
    ensures room { IsRoom coded.now.design room.new.row room.new.vals }
    ensures charged { IsCharged meter.old meter.new result }
    ensures later { IsLater meter.old meter.new }
    ensures stopped { OnStopped result (IsFoundRaised F.may_rise F.raised flag.old flag.new) }
    ensures flag { IsPolled F.may_rise F.raised flag.old flag.new }
{
    let level = frames.level(at);
    if level == frames.top() {
        return Ok(());
    }
    if !is_kept(
        alloc, coded, solver, frames, known, at, level, room, meter, flag,
    )? {
        return Ok(());
    }
    move_up(alloc, coded, solver, frames, known, at, level)?;
    Ok(())
}

/// Each clause of the level moves up, if each step from the level keeps it.
fn push_level<S: Probe, F: Flag>(
    alloc: Global,
    coded: &Coded,
    z: &mut Search<S>,
    level: u32,
    meter: &mut Meter,
    flag: &mut F,
) -> Result<(), Halt>
    requires core { IsCore coded.now (all_of z.old.known) z.old.frames (S.count z.old.solver)
        (S.added z.old.solver) }
    requires task { problem z.old.known.task ≡ problem coded.now }
    requires room { IsRoom coded.now.design z.old.room.row z.old.room.vals }
    ensures pushes { OnOk result (Pushes coded.now (all_of z.old.known) z.old.frames
        z.new.frames (S.count z.new.solver) (S.added z.new.solver)) }
    ensures known { z.new.known ≡ z.old.known }
    ensures queue { z.new.queue ≡ z.old.queue }
    ensures room { IsRoom coded.now.design z.new.room.row z.new.room.vals }
    ensures charged { IsCharged meter.old meter.new result }
    ensures later { IsLater meter.old meter.new }
    ensures stopped { OnStopped result (IsFoundRaised F.may_rise F.raised flag.old flag.new) }
    ensures flag { IsPolled F.may_rise F.raised flag.old flag.new }
{
    for at in 0..z.frames.len() {
        if z.frames.level(at) == level {
            push_one(
                alloc,
                coded,
                &mut z.solver,
                &mut z.frames,
                &z.known,
                at,
                &mut z.room,
                meter,
                flag,
            )?;
        }
    }
    Ok(())
}

/// The levels below the top one after another, so that a clause may rise through several.
fn push_all<S: Probe, F: Flag>(
    alloc: Global,
    coded: &Coded,
    z: &mut Search<S>,
    meter: &mut Meter,
    flag: &mut F,
) -> Result<(), Halt>
    requires core { IsCore coded.now (all_of z.old.known) z.old.frames (S.count z.old.solver)
        (S.added z.old.solver) }
    requires task { problem z.old.known.task ≡ problem coded.now }
    requires room { IsRoom coded.now.design z.old.room.row z.old.room.vals }
    ensures pushes { OnOk result (Pushes coded.now (all_of z.old.known) z.old.frames
        z.new.frames (S.count z.new.solver) (S.added z.new.solver)) }
    ensures known { z.new.known ≡ z.old.known }
    ensures queue { z.new.queue ≡ z.old.queue }
    ensures room { IsRoom coded.now.design z.new.room.row z.new.room.vals }
    ensures charged { IsCharged meter.old meter.new result }
    ensures later { IsLater meter.old meter.new }
    ensures stopped { OnStopped result (IsFoundRaised F.may_rise F.raised flag.old flag.new) }
    ensures flag { IsPolled F.may_rise F.raised flag.old flag.new }
{
    for level in 1..z.frames.top() {
        push_level(alloc, coded, z, level, meter, flag)?;
    }
    Ok(())
}

/// One more level at the top.
pub(crate) fn raise<S: Probe, F: Flag>(
    alloc: Global,
    coded: &Coded,
    z: &mut Search<S>,
    meter: &mut Meter,
    flag: &mut F,
) -> Result<(), Halt>
    requires search { IsSearch coded.now (all_of z.old.known) z.old.frames
        (S.count z.old.solver) (S.added z.old.solver) }
    requires task { problem z.old.known.task ≡ problem coded.now }
    requires room { IsRoom coded.now.design z.old.room.row z.old.room.vals }
    ensures raised { OnOk result (IsRaised coded.now (z.old.frames.top + 1)
        (state z.old.known z.old.frames z.old.queue (S.count z.old.solver)
        (S.added z.old.solver))
        (state z.new.known z.new.frames z.new.queue (S.count z.new.solver)
        (S.added z.new.solver))) }
    ensures known { z.new.known ≡ z.old.known }
    ensures room { IsRoom coded.now.design z.new.room.row z.new.room.vals }
    ensures charged { IsCharged meter.old meter.new result }
    ensures later { IsLater meter.old meter.new }
    ensures stopped { OnStopped result (IsFoundRaised F.may_rise F.raised flag.old flag.new) }
    ensures flag { IsPolled F.may_rise F.raised flag.old flag.new }
{
    grow(coded, &mut z.solver, &mut z.frames, &z.known)?;
    put_known(alloc, &mut z.frames, &z.known)?;
    push_all(alloc, coded, z, meter, flag)?;
    Ok(())
}
