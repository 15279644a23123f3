//! The weakest question first: is a clause inductive with what is known alone, and so for good?

ghost use Rattle.std.specs.Prelude.{◌≡◌, ◌+◌, ◌*◌, ◌^◌, true, false, length, IfOk, IfSome};
ghost use Rattle.ja_outside.specs.Flags.{IsPolled, IsFoundRaised};
ghost use Rattle.aig_model.specs.Netlist.{circuit};
ghost use Rattle.aig_model.specs.Task.{problem};
ghost use Rattle.sat_plain.specs.Ticks.{IsLater, TicksAtMost};
ghost use Rattle.ja_project.specs.Latches.{is_foreign};
ghost use Rattle.ja_project.specs.Start.{starts};
ghost use Rattle.ic3_query.specs.Endings.{IsCharged, OnStopped};
ghost use Rattle.ic3_query.specs.Known.{all_of};
ghost use Rattle.ic3_query.specs.Questions.{AreOwnLevels, IsRoom};
ghost use Rattle.ic3_query.specs.Serving.{Serves};
ghost use Rattle.ic3_engine.specs.Searching.{IsGoodPart};

use ic3_frames::Frames;
use ic3_general::shrink;
use ic3_query::{Asked, Halt, Known, Room, ask};
use ja_base::{Clause, Meter};
use ja_outside::Flag;
use ja_project::{Coded, ResetTable};
use sat_plain::Probe;
use std::alloc::Global;

/// A part of the clause that is inductive with what is known, if the clause is.
pub(crate) fn for_good<S: Probe, F: Flag>(
    alloc: Global,
    coded: &Coded,
    table: &ResetTable,
    solver: &mut S,
    frames: &Frames,
    known: &Known,
    clause: &Clause,
    room: &mut Room,
    meter: &mut Meter,
    flag: &mut F,
) -> Result<Option<Clause>, Halt>
    requires table { table.now ≡ coded.now.design }
    requires own { is_foreign (circuit coded.now.design) clause.now ≡ false }
    requires begins { starts (circuit coded.now.design) clause.now ≡ true }
    requires levels { AreOwnLevels coded.now.design frames.now.kept }
    requires task { problem known.now.task ≡ problem coded.now }
    requires room { IsRoom coded.now.design room.old.row room.old.vals }
    requires serves { Serves coded.now.design (all_of known.now) frames.now
        (S.count solver.old) (S.added solver.old) }
    ensures room { IsRoom coded.now.design room.new.row room.new.vals }
    ensures count { S.count solver.new ≡ S.count solver.old }
    ensures added { S.added solver.new ≡ S.added solver.old }
    ensures part { IfOk result (λ found. IfSome found
        (IsGoodPart coded.now (all_of known.now) clause.now)) }
    ensures charged { IsCharged meter.old meter.new result }
    ensures later { IsLater meter.old meter.new }
    ensures stopped { OnStopped result (IsFoundRaised F.may_rise F.raised flag.old flag.new) }
    ensures flag { IsPolled F.may_rise F.raised flag.old flag.new }
    ensures bounded { TicksAtMost meter.old meter.new
        ((length clause.now + 2) * (2 * (1 + 3 ^ S.count solver.old))) }
{
    let _task = coded.task();
    frames.are_levels();
    let level = frames.top() + 1;
    match ask(
        alloc, coded, solver, frames, known, level, clause, room, meter, flag,
    )? {
        Asked::Before => Ok(None),
        Asked::Blocked(core) => {
            let part = shrink(
                alloc, coded, table, solver, frames, known, level, clause, &core, room, meter, flag,
            )?;
            Ok(Some(part))
        }
    }
}
