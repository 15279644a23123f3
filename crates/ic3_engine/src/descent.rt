//! A descent: from one cube down through the levels, until it or one that leads to it is blocked, or a failure is found.

ghost use Rattle.std.specs.Prelude.{◌≡◌, ◌<◌, false, length, IfOk};
ghost use Rattle.ja_outside.specs.Flags.{IsPolled, IsFoundRaised};
ghost use Rattle.aig_model.specs.Task.{problem};
ghost use Rattle.sat_plain.specs.Ticks.{IsLater};
ghost use Rattle.ic3_frames.specs.Levels.{is_blocked};
ghost use Rattle.ic3_query.specs.Endings.{IsCharged, OnStopped};
ghost use Rattle.ic3_query.specs.Questions.{IsRoom};
ghost use Rattle.ic3_general.specs.Aims.{IsAim};
ghost use Rattle.ic3_engine.specs.Searching.{HasClosed};
ghost use Rattle.ic3_engine.specs.Waiting.{IsWaiting};
ghost use Rattle.ic3_engine.specs.Turns.{Descends, IsSearching, state};

use crate::outcome::Turn;
use crate::search::Search;
use crate::turn::take_turn;
use ic3_general::Aim;
use ic3_oblig::Obligation;
use ic3_query::Halt;
use ja_base::Meter;
use ja_outside::Flag;
use ja_project::{Coded, ResetTable};
use local_stim::LocalFailure;
use sat_plain::Probe;
use std::alloc::Global;

/// One cube is blocked, or a failure is found; the search can go on from either. Each turn goes one level down, so there are no
/// more of them than the first cube's level.
pub(crate) fn descend<S: Probe, F: Flag>(
    alloc: Global,
    coded: &Coded,
    table: &ResetTable,
    aim: &Aim,
    z: &mut Search<S>,
    first: Obligation,
    meter: &mut Meter,
    flag: &mut F,
) -> Result<Option<LocalFailure>, Halt>
    requires table { table.now ≡ coded.now.design }
    requires aim { IsAim coded.now aim.now }
    requires search { IsSearching coded.now aim.now (state z.old.known z.old.frames z.old.queue
        (S.count z.old.solver) (S.added z.old.solver)) }
    requires room { IsRoom coded.now.design z.old.room.row z.old.room.vals }
    requires waits { IsWaiting coded.now aim.now z.old.frames.top first }
    requires free { is_blocked z.old.frames.kept first.level first.clause ≡ false }
    ensures descends { IfOk result (Descends coded.now aim.now first.level
        (state z.old.known z.old.frames z.old.queue (S.count z.old.solver)
        (S.added z.old.solver))
        (state z.new.known z.new.frames z.new.queue (S.count z.new.solver)
        (S.added z.new.solver))) }
    ensures room { IsRoom coded.now.design z.new.room.row z.new.room.vals }
    ensures closed { HasClosed z.old.known z.new.known }
    ensures charged { IsCharged meter.old meter.new result }
    ensures later { IsLater meter.old meter.new }
    ensures stopped { OnStopped result (IsFoundRaised F.may_rise F.raised flag.old flag.new) }
    ensures flag { IsPolled F.may_rise F.raised flag.old flag.new }
{
    let mut now = first;
    loop {
        match take_turn(alloc, coded, table, aim, z, now, meter, flag)? {
            Turn::Done => return Ok(None),
            Turn::Failed(failure) => return Ok(Some(failure)),
            Turn::Lower(next) => now = next,
        }
    }
}
