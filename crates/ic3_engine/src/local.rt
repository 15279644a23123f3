//! IC3 for one property, on an engine that is made for it.

ghost use Rattle.std.specs.Prelude.{◌≡◌, ◌+◌, ◌<◌, ◌^◌, length, IfOk, OnOk};
ghost use Rattle.ja_base.specs.Invariants.{Covers};
ghost use Rattle.ja_outside.specs.Flags.{IsPolled, IsFoundRaised};
ghost use Rattle.aig_model.specs.Netlist.{circuit};
ghost use Rattle.aig_model.specs.Task.{problem};
ghost use Rattle.sat_plain.specs.Ticks.{IsLater, TicksAtMost};
ghost use Rattle.inv_cert.specs.Queries.{cover_clauses};
ghost use Rattle.ic3_query.specs.Endings.{IsCharged, OnStopped};
ghost use Rattle.ic3_query.specs.Known.{all_of};
ghost use Rattle.ic3_query.specs.Questions.{IsRoom};
ghost use Rattle.ic3_engine.specs.Engines.{IsReady};
ghost use Rattle.ic3_engine.specs.Found.{HasList, IsFoundOf};
ghost use Rattle.ic3_engine.specs.Local.{AnswersList, IsAnswered, IsOf, OnAnswerStopped};
ghost use Rattle.ic3_engine.specs.Turns.{state};

use crate::closing::proved_by;
use crate::engine::{Engine, engine_over};
use crate::found::Found;
use crate::learning::take_news;
use crate::own::prove_own;
use crate::proved::ProvedList;
use crate::share::Share;
use crate::viewing::is_covered;
use ic3_query::{Halt, Known, first_solver};
use inv_cert::Closed;
use ja_base::{ClosedSet, Memory, Meter};
use ja_outside::Flag;
use ja_project::Coded;
use local_stim::LocalFailure;
use sat_plain::{Probe, Sat};
use std::alloc::Global;

#[derive(Drop)]
pub enum LocalAnswer {
    Proved(ProvedList),
    Fails(LocalFailure),
    /// The meter's limit is reached.
    Spent,
    /// The flag was found raised.
    Stopped,
    Memory,
}

/// A search over a solver that has the design and what is known.
fn search<S: Probe, L: Sat, F: Flag, H: Share>(
    alloc: Global,
    coded: &Coded,
    prop: u32,
    solver: S,
    known: Known,
    meter: &mut Meter,
    flag: &mut F,
    share: &mut H,
) -> Result<Found, Halt>
    requires within { prop < length coded.now.design.bads }
    requires task { problem known.task ≡ problem coded.now }
    requires count { S.count solver ≡ coded.now.design.vars + 1 }
    requires added { S.added solver ≡ cover_clauses coded.now (all_of known) }
    requires share { H.task share.old ≡ problem coded.now }
    ensures found { IfOk result (IsFoundOf coded.now prop) }
    ensures charged { IsCharged meter.old meter.new result }
    ensures later { IsLater meter.old meter.new }
    ensures stopped { OnStopped result (IsFoundRaised F.may_rise F.raised flag.old flag.new) }
    ensures flag { IsPolled F.may_rise F.raised flag.old flag.new }
    ensures share_task { H.task share.new ≡ H.task share.old }
    ensures share_later { H.later share.old share.new }
{
    let mut engine: Engine<S, L> = engine_over(alloc, coded, solver, known)?;
    take_news(alloc, coded, &mut engine.search, share)?;
    prove_own(alloc, coded, prop, &mut engine, meter, flag, share)
}

/// The list alone is asked first, before a level is opened.
fn find<S: Probe, L: Sat, F: Flag, H: Share>(
    alloc: Global,
    coded: &Coded,
    prop: u32,
    view: &Closed,
    meter: &mut Meter,
    flag: &mut F,
    share: &mut H,
) -> Result<Found, Halt>
    requires within { prop < length coded.now.design.bads }
    requires view { problem view.now.task ≡ problem coded.now }
    requires share { H.task share.old ≡ problem coded.now }
    ensures found { IfOk result (IsFoundOf coded.now prop) }
    ensures charged { IsCharged meter.old meter.new result }
    ensures later { IsLater meter.old meter.new }
    ensures stopped { OnStopped result (IsFoundRaised F.may_rise F.raised flag.old flag.new) }
    ensures flag { IsPolled F.may_rise F.raised flag.old flag.new }
    ensures share_task { H.task share.new ≡ H.task share.old }
    ensures share_later { H.later share.old share.new }
    ensures covered { Covers (circuit coded.now.design) view.now.clauses prop
        → IfOk result (HasList view.now.clauses) }
    ensures few { Covers (circuit coded.now.design) view.now.clauses prop
        → TicksAtMost meter.old meter.new (1 + 3 ^ (coded.now.design.vars + 1)) }
{
    let known = Known::of(alloc, view.copy(alloc)?);
    let mut solver: S = first_solver(alloc, coded, &known)?;
    if is_covered(alloc, coded, prop, &mut solver, &known, meter, flag)? {
        return Ok(Found::Proved(proved_by(alloc, coded, prop, &known)?));
    }
    search::<S, L, F, H>(alloc, coded, prop, solver, known, meter, flag, share)
}

/// Whether the property is covered by a closed list or fails locally. One question asks whether the view covers it; else an engine
/// that starts from the view takes what the share has, and searches. What was closed is published.
pub fn prove_local<S: Probe, L: Sat, F: Flag, H: Share>(
    alloc: Global,
    coded: &Coded,
    prop: u32,
    view: &Closed,
    meter: &mut Meter,
    flag: &mut F,
    share: &mut H,
) -> LocalAnswer
    requires within { prop < length coded.now.design.bads }
    requires view { problem view.now.task ≡ problem coded.now }
    requires share { H.task share.old ≡ problem coded.now }
    ensures answer { IsOf coded.now prop result }
    ensures charged { IsAnswered meter.old meter.new result }
    ensures later { IsLater meter.old meter.new }
    ensures stopped { OnAnswerStopped result
        (IsFoundRaised F.may_rise F.raised flag.old flag.new) }
    ensures flag { IsPolled F.may_rise F.raised flag.old flag.new }
    ensures share_task { H.task share.new ≡ H.task share.old }
    ensures share_later { H.later share.old share.new }
    ensures covered { Covers (circuit coded.now.design) view.now.clauses prop
        → AnswersList view.now.clauses result }
    ensures few { Covers (circuit coded.now.design) view.now.clauses prop
        → TicksAtMost meter.old meter.new (1 + 3 ^ (coded.now.design.vars + 1)) }
{
    match find::<S, L, F, H>(alloc, coded, prop, view, meter, flag, share) {
        Ok(Found::Proved(proved)) => LocalAnswer::Proved(proved),
        Ok(Found::Fails(failure)) => LocalAnswer::Fails(failure),
        Err(Halt::Spent) => LocalAnswer::Spent,
        Err(Halt::Stopped) => LocalAnswer::Stopped,
        Err(Halt::Memory) => LocalAnswer::Memory,
    }
}
