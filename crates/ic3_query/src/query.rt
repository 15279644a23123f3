//! Whether a step leads out of a clause. The question is asked of its cone first: what the solver finds there is completed and
//! judged by evaluation. Where it does not pass, all variables are decided, and the row needs no test.

ghost use Rattle.std.specs.Prelude.{◌≡◌, ◌+◌, ◌*◌, ◌≤◌, ◌^◌, false, IfOk};
ghost use Rattle.ja_base.specs.Clauses.{IsBelow};
ghost use Rattle.ja_outside.specs.Flags.{IsPolled, IsFoundRaised};
ghost use Rattle.aig_model.specs.Netlist.{circuit};
ghost use Rattle.aig_model.specs.Task.{problem};
ghost use Rattle.sat_plain.specs.Ticks.{IsLater, TicksAtMost};
ghost use Rattle.ja_project.specs.Latches.{is_foreign};
ghost use Rattle.ic3_query.specs.Endings.{IsCharged, OnStopped};
ghost use Rattle.ic3_query.specs.Known.{all_of};
ghost use Rattle.ic3_query.specs.Questions.{AnswersFor, AreOwnLevels, IsRoom, KnownAnswersFor};
ghost use Rattle.ic3_query.specs.Serving.{Serves};
ghost use Rattle.ic3_query.specs.Under.{step_literals};

use crate::asked::Asked;
use crate::halt::Halt;
use crate::known::Known;
use crate::question::question;
use crate::room::Room;
use crate::seen::leads_out;
use crate::under::step_literals;
use aig_eval::fill;
use ic3_frames::Frames;
use ja_base::{Clause, Lit, Meter};
use ja_outside::Flag;
use ja_project::Coded;
use sat_plain::Probe;
use std::alloc::Global;
use std::mem::swap;

/// All variables are decided, so that what is found is a step.
fn ask_whole<S: Probe, F: Flag>(
    alloc: Global,
    coded: &Coded,
    solver: &mut S,
    frames: &Frames,
    known: &Known,
    level: u32,
    clause: &Clause,
    under: &[Lit],
    room: &mut Room,
    meter: &mut Meter,
    flag: &mut F,
) -> Result<Asked, Halt>
    requires level { level ≤ frames.now.top + 1 }
    requires own { is_foreign (circuit coded.now.design) clause.now ≡ false }
    requires below { IsBelow (S.count solver.old) under.now }
    requires under { under.now ≡ step_literals coded.now level frames.now.top clause.now }
    requires task { problem known.now.task ≡ problem coded.now }
    requires room { IsRoom coded.now.design room.old.row room.old.vals }
    requires serves { Serves coded.now.design (all_of known.now) frames.now
        (S.count solver.old) (S.added solver.old) }
    ensures room { IsRoom coded.now.design room.new.row room.new.vals }
    ensures count { S.count solver.new ≡ S.count solver.old }
    ensures added { S.added solver.new ≡ S.added solver.old }
    ensures answer { IfOk result (AnswersFor coded.now (all_of known.now) frames.now level
        clause.now room.new.vals) }
    ensures known { level ≡ frames.now.top + 1 → IfOk result (KnownAnswersFor coded.now
        (all_of known.now) frames.now clause.now room.new.vals) }
    ensures charged { IsCharged meter.old meter.new result }
    ensures later { IsLater meter.old meter.new }
    ensures stopped { OnStopped result (IsFoundRaised F.may_rise F.raised flag.old flag.new) }
    ensures flag { IsPolled F.may_rise F.raised flag.old flag.new }
    ensures bounded { TicksAtMost meter.old meter.new (1 + 3 ^ S.count solver.old) }
{
    let _task = coded.task();
    let _known = known.own();
    let core = question(
        alloc,
        solver,
        under,
        Some(clause),
        None,
        &mut room.row,
        meter,
        flag,
    )?;
    match core {
        Some(core) => Ok(Asked::Blocked(core)),
        None => {
            swap(&mut room.row, &mut room.vals);
            Ok(Asked::Before)
        }
    }
}

/// Whether a step from a row of the level that meets the clause leads to one that does not. At the level above the top nothing
/// counts but what is known.
pub fn ask<S: Probe, F: Flag>(
    alloc: Global,
    coded: &Coded,
    solver: &mut S,
    frames: &Frames,
    known: &Known,
    level: u32,
    clause: &Clause,
    room: &mut Room,
    meter: &mut Meter,
    flag: &mut F,
) -> Result<Asked, Halt>
    requires level { level ≤ frames.now.top + 1 }
    requires own { is_foreign (circuit coded.now.design) clause.now ≡ false }
    requires levels { AreOwnLevels coded.now.design frames.now.kept }
    requires task { problem known.now.task ≡ problem coded.now }
    requires room { IsRoom coded.now.design room.old.row room.old.vals }
    requires serves { Serves coded.now.design (all_of known.now) frames.now
        (S.count solver.old) (S.added solver.old) }
    ensures room { IsRoom coded.now.design room.new.row room.new.vals }
    ensures count { S.count solver.new ≡ S.count solver.old }
    ensures added { S.added solver.new ≡ S.added solver.old }
    ensures answer { IfOk result (AnswersFor coded.now (all_of known.now) frames.now level
        clause.now room.new.vals) }
    ensures known { level ≡ frames.now.top + 1 → IfOk result (KnownAnswersFor coded.now
        (all_of known.now) frames.now clause.now room.new.vals) }
    ensures charged { IsCharged meter.old meter.new result }
    ensures later { IsLater meter.old meter.new }
    ensures stopped { OnStopped result (IsFoundRaised F.may_rise F.raised flag.old flag.new) }
    ensures flag { IsPolled F.may_rise F.raised flag.old flag.new }
    ensures bounded { TicksAtMost meter.old meter.new (2 * (1 + 3 ^ S.count solver.old)) }
{
    let task = coded.task();
    let under = step_literals(alloc, coded, level, frames.top(), clause)?;
    room.cones.mark_later(coded, clause)?;
    if let Some(core) = question(
        alloc,
        solver,
        under.as_slice(),
        Some(clause),
        Some(room.cones.vars()),
        &mut room.row,
        meter,
        flag,
    )? {
        return Ok(Asked::Blocked(core));
    }
    fill(task.design(), &room.row, &mut room.vals);
    if leads_out(coded, frames, known, level, clause, &room.vals) {
        return Ok(Asked::Before);
    }
    let answer = ask_whole(
        alloc,
        coded,
        solver,
        frames,
        known,
        level,
        clause,
        under.as_slice(),
        room,
        meter,
        flag,
    )?;
    Ok(answer)
}

/// The same with what is known alone.
pub fn ask_known<S: Probe, F: Flag>(
    alloc: Global,
    coded: &Coded,
    solver: &mut S,
    frames: &Frames,
    known: &Known,
    clause: &Clause,
    room: &mut Room,
    meter: &mut Meter,
    flag: &mut F,
) -> Result<Asked, Halt>
    requires own { is_foreign (circuit coded.now.design) clause.now ≡ false }
    requires levels { AreOwnLevels coded.now.design frames.now.kept }
    requires task { problem known.now.task ≡ problem coded.now }
    requires room { IsRoom coded.now.design room.old.row room.old.vals }
    requires serves { Serves coded.now.design (all_of known.now) frames.now
        (S.count solver.old) (S.added solver.old) }
    ensures room { IsRoom coded.now.design room.new.row room.new.vals }
    ensures count { S.count solver.new ≡ S.count solver.old }
    ensures added { S.added solver.new ≡ S.added solver.old }
    ensures answer { IfOk result (KnownAnswersFor coded.now (all_of known.now) frames.now
        clause.now room.new.vals) }
    ensures charged { IsCharged meter.old meter.new result }
    ensures later { IsLater meter.old meter.new }
    ensures stopped { OnStopped result (IsFoundRaised F.may_rise F.raised flag.old flag.new) }
    ensures flag { IsPolled F.may_rise F.raised flag.old flag.new }
    ensures bounded { TicksAtMost meter.old meter.new (2 * (1 + 3 ^ S.count solver.old)) }
{
    let level = frames.top() + 1;
    let answer = ask(
        alloc, coded, solver, frames, known, level, clause, room, meter, flag,
    )?;
    Ok(answer)
}
