//! A property is sought: covered by what is known, after a search if need be, or with a failure.

ghost use Rattle.std.specs.Prelude.{◌≡◌, IfOk};
ghost use Rattle.aig_model.specs.Task.{problem};
ghost use Rattle.ja_outside.specs.Flags.{IsPolled, IsFoundRaised};
ghost use Rattle.sat_plain.specs.Ticks.{IsLater};
ghost use Rattle.ic3_query.specs.Endings.{IsCharged, OnStopped};
ghost use Rattle.ic3_query.specs.Questions.{IsRoom};
ghost use Rattle.ic3_general.specs.Aims.{IsAim};
ghost use Rattle.ic3_engine.specs.Climbing.{Ends, IsEngine};
ghost use Rattle.ic3_engine.specs.Turns.{state};

use crate::ascending::ascend;
use crate::knowing::covers_for_good;
use crate::learning::take_news;
use crate::outcome::Ascent;
use crate::search::Search;
use crate::share::Share;
use ic3_general::Aim;
use ic3_oblig::Queue;
use ic3_query::Halt;
use ja_base::Meter;
use ja_outside::Flag;
use ja_project::{Coded, ResetTable};
use local_stim::LocalFailure;
use sat_plain::Probe;
use std::alloc::Global;

/// The search for one property: what is known covers it at the end, or a failure is found. The top rises in each round but the
/// last, and is bounded; where it does, what others proved is taken up.
pub(crate) fn run<S: Probe, F: Flag, H: Share>(
    alloc: Global,
    coded: &Coded,
    table: &ResetTable,
    aim: &Aim,
    z: &mut Search<S>,
    meter: &mut Meter,
    flag: &mut F,
    share: &mut H,
) -> Result<Option<LocalFailure>, Halt>
    requires table { table.now ≡ coded.now.design }
    requires aim { IsAim coded.now aim.now }
    requires engine { IsEngine coded.now (state z.old.known z.old.frames z.old.queue
        (S.count z.old.solver) (S.added z.old.solver)) }
    requires room { IsRoom coded.now.design z.old.room.row z.old.room.vals }
    requires share { H.task share.old ≡ problem coded.now }
    ensures ends { IfOk result (Ends coded.now aim.now
        (state z.old.known z.old.frames z.old.queue (S.count z.old.solver)
        (S.added z.old.solver))
        (state z.new.known z.new.frames z.new.queue (S.count z.new.solver)
        (S.added z.new.solver))) }
    ensures task { problem z.new.known.task ≡ problem coded.now }
    ensures room { IsRoom coded.now.design z.new.room.row z.new.room.vals }
    ensures charged { IsCharged meter.old meter.new result }
    ensures later { IsLater meter.old meter.new }
    ensures stopped { OnStopped result (IsFoundRaised F.may_rise F.raised flag.old flag.new) }
    ensures flag { IsPolled F.may_rise F.raised flag.old flag.new }
    ensures share_task { H.task share.new ≡ H.task share.old }
    ensures share_later { H.later share.old share.new }
{
    loop {
        match ascend(alloc, coded, table, aim, z, meter, flag)? {
            Ascent::Failed(failure) => return Ok(Some(failure)),
            Ascent::Covered => return Ok(None),
            Ascent::Higher => take_news(alloc, coded, z, share)?,
        }
    }
}

/// What is known alone is asked first, and what can be blocked for good, before a level is looked at.
pub(crate) fn seek<S: Probe, F: Flag, H: Share>(
    alloc: Global,
    coded: &Coded,
    table: &ResetTable,
    aim: &Aim,
    z: &mut Search<S>,
    meter: &mut Meter,
    flag: &mut F,
    share: &mut H,
) -> Result<Option<LocalFailure>, Halt>
    requires table { table.now ≡ coded.now.design }
    requires aim { IsAim coded.now aim.now }
    requires engine { IsEngine coded.now (state z.old.known z.old.frames z.old.queue
        (S.count z.old.solver) (S.added z.old.solver)) }
    requires room { IsRoom coded.now.design z.old.room.row z.old.room.vals }
    requires share { H.task share.old ≡ problem coded.now }
    ensures ends { IfOk result (Ends coded.now aim.now
        (state z.old.known z.old.frames z.old.queue (S.count z.old.solver)
        (S.added z.old.solver))
        (state z.new.known z.new.frames z.new.queue (S.count z.new.solver)
        (S.added z.new.solver))) }
    ensures room { IsRoom coded.now.design z.new.room.row z.new.room.vals }
    ensures task { problem z.new.known.task ≡ problem coded.now }
    ensures charged { IsCharged meter.old meter.new result }
    ensures later { IsLater meter.old meter.new }
    ensures stopped { OnStopped result (IsFoundRaised F.may_rise F.raised flag.old flag.new) }
    ensures flag { IsPolled F.may_rise F.raised flag.old flag.new }
    ensures share_task { H.task share.new ≡ H.task share.old }
    ensures share_later { H.later share.old share.new }
{
    if covers_for_good(alloc, coded, table, aim, z, meter, flag)? {
        return Ok(None);
    }
    let found = run(alloc, coded, table, aim, z, meter, flag, share)?;
    Ok(found)
}
