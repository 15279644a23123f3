//! An engine is asked until what it finds is of the property.

ghost use Rattle.std.specs.Prelude.{◌≡◌, ◌<◌, ◌↔◌, length, IfOk, IsTrue, ℕ};
ghost use Rattle.ja_outside.specs.Flags.{IsPolled, IsFoundRaised};
ghost use Rattle.aig_model.specs.Task.{problem};
ghost use Rattle.sat_plain.specs.Ticks.{IsLater};
ghost use Rattle.ic3_query.specs.Endings.{IsCharged, OnStopped};
ghost use Rattle.ic3_engine.specs.Engines.{IsReadyFor};
ghost use Rattle.ic3_engine.specs.Found.{IfFails, IsFoundOf};

use crate::engine::{Engine, prove};
use crate::found::Found;
use crate::share::Share;
use ic3_query::Halt;
use ja_base::Meter;
use ja_outside::Flag;
use ja_project::Coded;
use sat_plain::{Probe, Sat};
use std::alloc::Global;

/// Whether it is of this property.
fn is_of(found: &Found, prop: u32) -> bool
    ensures { IsTrue result ↔ IfFails found.now (λ failure. failure.prop ≡ prop) }
{
    match found {
        Found::Proved(_) => true,
        Found::Fails(failure) => failure.prop() == prop,
    }
}

/// A failure of another property is one of which none was found before, so that the engine is asked at most once more for each
/// property.
pub(crate) fn prove_own<S: Probe, L: Sat, F: Flag, H: Share>(
    alloc: Global,
    coded: &Coded,
    prop: u32,
    engine: &mut Engine<S, L>,
    meter: &mut Meter,
    flag: &mut F,
    share: &mut H,
) -> Result<Found, Halt>
    requires within { prop < length coded.now.design.bads }
    requires share { H.task share.old ≡ problem coded.now }
    requires ready { IsReadyFor S.count S.added coded.now engine.old }
    ensures ready { IsReadyFor S.count S.added coded.now engine.new }
    ensures found { IfOk result (IsFoundOf coded.now prop) }
    ensures charged { IsCharged meter.old meter.new result }
    ensures later { IsLater meter.old meter.new }
    ensures stopped { OnStopped result (IsFoundRaised F.may_rise F.raised flag.old flag.new) }
    ensures flag { IsPolled F.may_rise F.raised flag.old flag.new }
    ensures share_task { H.task share.new ≡ H.task share.old }
    ensures share_later { H.later share.old share.new }
{
    let _task = coded.task();
    loop {
        let found = prove(alloc, coded, prop, engine, meter, flag, share)?;
        if is_of(&found, prop) {
            return Ok(found);
        }
    }
}
