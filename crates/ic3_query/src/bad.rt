//! Whether a step breaks a property, in the same way.

ghost use Rattle.std.specs.Prelude.{◌≡◌, ◌+◌, ◌*◌, ◌<◌, ◌≤◌, ◌^◌, IfOk, length};
ghost use Rattle.ja_base.specs.Clauses.{IsBelow};
ghost use Rattle.ja_outside.specs.Flags.{IsPolled, IsFoundRaised};
ghost use Rattle.aig_model.specs.Task.{problem};
ghost use Rattle.sat_plain.specs.Ticks.{IsLater, TicksAtMost};
ghost use Rattle.ic3_query.specs.Endings.{IsCharged, OnStopped};
ghost use Rattle.ic3_query.specs.Known.{all_of};
ghost use Rattle.ic3_query.specs.Questions.{AreOwnLevels, BadFor, IsRoom};
ghost use Rattle.ic3_query.specs.Serving.{Serves};
ghost use Rattle.ic3_query.specs.Under.{bad_literals};

use crate::halt::Halt;
use crate::known::Known;
use crate::question::question;
use crate::room::Room;
use crate::seen::leads_to_bad;
use crate::under::bad_literals;
use aig_eval::fill;
use ic3_frames::Frames;
use ja_base::{Lit, Meter};
use ja_outside::Flag;
use ja_project::Coded;
use sat_plain::Probe;
use std::alloc::Global;
use std::mem::swap;

/// All variables are decided, so that what is found is a step.
fn ask_bad_whole<S: Probe, F: Flag>(
    alloc: Global,
    coded: &Coded,
    prop: u32,
    solver: &mut S,
    frames: &Frames,
    known: &Known,
    level: u32,
    under: &[Lit],
    room: &mut Room,
    meter: &mut Meter,
    flag: &mut F,
) -> Result<bool, Halt>
    requires level { level ≤ frames.now.top + 1 }
    requires within { prop < length coded.now.design.bads }
    requires below { IsBelow (S.count solver.old) under.now }
    requires under { under.now ≡ bad_literals coded.now level frames.now.top prop }
    requires task { problem known.now.task ≡ problem coded.now }
    requires room { IsRoom coded.now.design room.old.row room.old.vals }
    requires serves { Serves coded.now.design (all_of known.now) frames.now
        (S.count solver.old) (S.added solver.old) }
    ensures room { IsRoom coded.now.design room.new.row room.new.vals }
    ensures count { S.count solver.new ≡ S.count solver.old }
    ensures added { S.added solver.new ≡ S.added solver.old }
    ensures answer { IfOk result
        (BadFor coded.now (all_of known.now) frames.now level prop room.new.vals) }
    ensures charged { IsCharged meter.old meter.new result }
    ensures later { IsLater meter.old meter.new }
    ensures stopped { OnStopped result (IsFoundRaised F.may_rise F.raised flag.old flag.new) }
    ensures flag { IsPolled F.may_rise F.raised flag.old flag.new }
    ensures bounded { TicksAtMost meter.old meter.new (1 + 3 ^ S.count solver.old) }
{
    let _task = coded.task();
    let _known = known.own();
    if let Some(_core) = question(alloc, solver, under, None, None, &mut room.row, meter, flag)? {
        return Ok(false);
    }
    swap(&mut room.row, &mut room.vals);
    Ok(true)
}

/// Whether a step from a row of the level breaks the property, with no assumption; its values then stand in the room.
pub fn ask_bad<S: Probe, F: Flag>(
    alloc: Global,
    coded: &Coded,
    prop: u32,
    solver: &mut S,
    frames: &Frames,
    known: &Known,
    level: u32,
    room: &mut Room,
    meter: &mut Meter,
    flag: &mut F,
) -> Result<bool, Halt>
    requires level { level ≤ frames.now.top + 1 }
    requires within { prop < length coded.now.design.bads }
    requires levels { AreOwnLevels coded.now.design frames.now.kept }
    requires task { problem known.now.task ≡ problem coded.now }
    requires room { IsRoom coded.now.design room.old.row room.old.vals }
    requires serves { Serves coded.now.design (all_of known.now) frames.now
        (S.count solver.old) (S.added solver.old) }
    ensures room { IsRoom coded.now.design room.new.row room.new.vals }
    ensures count { S.count solver.new ≡ S.count solver.old }
    ensures added { S.added solver.new ≡ S.added solver.old }
    ensures answer { IfOk result
        (BadFor coded.now (all_of known.now) frames.now level prop room.new.vals) }
    ensures charged { IsCharged meter.old meter.new result }
    ensures later { IsLater meter.old meter.new }
    ensures stopped { OnStopped result (IsFoundRaised F.may_rise F.raised flag.old flag.new) }
    ensures flag { IsPolled F.may_rise F.raised flag.old flag.new }
    ensures bounded { TicksAtMost meter.old meter.new (2 * (1 + 3 ^ S.count solver.old)) }
{
    let task = coded.task();
    let under = bad_literals(alloc, coded, level, frames.top(), prop)?;
    room.cones.mark(coded, coded.bad(prop))?;
    if let Some(_core) = question(
        alloc,
        solver,
        under.as_slice(),
        None,
        Some(room.cones.vars()),
        &mut room.row,
        meter,
        flag,
    )? {
        return Ok(false);
    }
    fill(task.design(), &room.row, &mut room.vals);
    if leads_to_bad(coded, prop, frames, known, level, &room.vals) {
        return Ok(true);
    }
    let answer = ask_bad_whole(
        alloc,
        coded,
        prop,
        solver,
        frames,
        known,
        level,
        under.as_slice(),
        room,
        meter,
        flag,
    )?;
    Ok(answer)
}
