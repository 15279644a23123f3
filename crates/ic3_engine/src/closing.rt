//! What is known is closed: a proof for each clause that has none yet.

ghost use Rattle.std.specs.Prelude.{◌≡◌, [], IfOk, OnOk};
ghost use Rattle.ja_base.specs.ClauseSets.{joined};
ghost use Rattle.ja_base.specs.Invariants.{Covers};
ghost use Rattle.ja_outside.specs.Flags.{IsPolled, IsFoundRaised};
ghost use Rattle.aig_model.specs.Netlist.{circuit};
ghost use Rattle.aig_model.specs.Task.{problem};
ghost use Rattle.sat_plain.specs.Ticks.{IsLater};
ghost use Rattle.ic3_query.specs.Endings.{IsCharged, OnStopped};
ghost use Rattle.ic3_query.specs.Known.{all_of};
ghost use Rattle.ic3_query.specs.Questions.{IsRoom};
ghost use Rattle.ic3_engine.specs.Climbing.{IsEngine};
ghost use Rattle.ic3_engine.specs.Found.{IsProvedFor};
ghost use Rattle.ic3_engine.specs.Turns.{state};

use crate::proved::ProvedList;
use crate::search::Search;
use ic3_query::{Certifier, Halt, Known};
use ja_base::{ClosedSet, Memory, Meter};
use ja_outside::Flag;
use ja_project::Coded;
use sat_plain::Sat;
use std::alloc::Global;

/// The closed list that covers the property, with nothing left out of it that is known.
pub(crate) fn proved_by(
    alloc: Global,
    coded: &Coded,
    prop: u32,
    known: &Known,
) -> Result<ProvedList, Memory>
    requires task { problem known.now.task ≡ problem coded.now }
    requires own { known.now.own ≡ [] }
    requires covers { Covers (circuit coded.now.design) (all_of known.now) prop }
    ensures proved { IfOk result (IsProvedFor coded.now prop) }
    ensures list { IfOk result (λ proved. proved.list.clauses ≡ known.now.list) }
{
    let list = known.list().copy(alloc)?;
    Ok(ProvedList { list, prop })
}

/// The clauses that have no proof yet, if there are any, become part of the closed list.
fn close_known<L: Sat, F: Flag>(
    alloc: Global,
    coded: &Coded,
    known: &mut Known,
    certifier: &mut Certifier<L>,
    meter: &mut Meter,
    flag: &mut F,
) -> Result<(), Halt>
    requires task { problem known.old.task ≡ problem coded.now }
    requires certifier { certifier.old ≡ coded.now }
    ensures certifier { certifier.new ≡ certifier.old }
    ensures list { OnOk result (known.new.list ≡ joined known.old.list known.old.own) }
    ensures own { OnOk result (known.new.own ≡ []) }
    ensures task { problem known.new.task ≡ problem coded.now }
    ensures charged { IsCharged meter.old meter.new result }
    ensures later { IsLater meter.old meter.new }
    ensures stopped { OnStopped result (IsFoundRaised F.may_rise F.raised flag.old flag.new) }
    ensures flag { IsPolled F.may_rise F.raised flag.old flag.new }
{
    if known.own().len() == 0 {
        return Ok(());
    }
    known.close(alloc, coded, certifier, meter, flag)?;
    Ok(())
}

/// What is known is closed, and covers the property.
pub(crate) fn give<S: Sat, L: Sat, F: Flag>(
    alloc: Global,
    coded: &Coded,
    prop: u32,
    z: &mut Search<S>,
    certifier: &mut Certifier<L>,
    meter: &mut Meter,
    flag: &mut F,
) -> Result<ProvedList, Halt>
    requires engine { IsEngine coded.now (state z.old.known z.old.frames z.old.queue
        (S.count z.old.solver) (S.added z.old.solver)) }
    requires room { IsRoom coded.now.design z.old.room.row z.old.room.vals }
    requires covers { Covers (circuit coded.now.design) (all_of z.old.known) prop }
    requires certifier { certifier.old ≡ coded.now }
    ensures certifier { certifier.new ≡ certifier.old }
    ensures engine { OnOk result (IsEngine coded.now (state z.new.known z.new.frames
        z.new.queue (S.count z.new.solver) (S.added z.new.solver))) }
    ensures top { z.new.frames.top ≡ z.old.frames.top }
    ensures room { IsRoom coded.now.design z.new.room.row z.new.room.vals }
    ensures known { problem z.new.known.task ≡ problem coded.now }
    ensures proved { IfOk result (IsProvedFor coded.now prop) }
    ensures charged { IsCharged meter.old meter.new result }
    ensures later { IsLater meter.old meter.new }
    ensures stopped { OnStopped result (IsFoundRaised F.may_rise F.raised flag.old flag.new) }
    ensures flag { IsPolled F.may_rise F.raised flag.old flag.new }
{
    close_known(alloc, coded, &mut z.known, certifier, meter, flag)?;
    let proved = proved_by(alloc, coded, prop, &z.known)?;
    Ok(proved)
}
