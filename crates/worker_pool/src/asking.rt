//! One question to an engine, and its answer as a judgement.

ghost use Rattle.std.specs.Prelude.{◌≡◌, ◌<◌, ◌⊎◌, Some, None, length, IfOk, IfSome, OnOk};
ghost use Rattle.ja_outside.specs.Flags.{IsPolled, IsFoundRaised};
ghost use Rattle.aig_model.specs.Task.{problem};
ghost use Rattle.store_core.specs.declared.answers.Judged.TheVariants as judged;
ghost use Rattle.desk.specs.Seats.{IsLater};
ghost use Rattle.ic3_query.specs.declared.halt.Halt.TheVariants as halts;
ghost use Rattle.ic3_engine.specs.Engines.{IsReadyFor};
ghost use Rattle.worker_pool.specs.Judgements.{Settles, judged_property, judgement_of, unset};

use desk::{Desk, Seat};
use ic3_engine::{Engine, Found, NoShare, advance, learn, prove};
use ic3_query::Halt;
use inv_cert::Closed;
use ja_base::{Memory, Meter};
use ja_outside::Flag;
use ja_project::Coded;
use local_stim::LocalFailure;
use sat_plain::{Probe, Sat};
use std::alloc::Global;
use std::sync::Wait;
use store_core::{Judged, Naming};

/// A proof, a failure, or that the budget was spent.
pub type Judgement = Judged<Closed, LocalFailure>;

/// What was spent is the meter's limit.
fn spent(meter: &Meter) -> Judgement
    requires { meter.now.limit ≡ Some meter.now.spent }
    ensures judged { result ≡ judged.Spent meter.now.spent }
{
    let Some(note) = meter.note() else {
        unreachable!();
    };
    Judged::Spent(note)
}

/// What was found, as a judgement.
fn judgement(found: Found) -> Judgement
    ensures { result ≡ judgement_of found }
{
    match found {
        Found::Proved(proved) => Judged::Proved(proved.list),
        Found::Fails(failure) => Judged::Fails(failure),
    }
}

/// The judgement where nothing was found. None where the flag stopped the search.
fn halted(halt: Halt, meter: &Meter) -> Result<Option<Judgement>, Memory>
    requires spent { halt ≡ halts.Spent → meter.now.limit ≡ Some meter.now.spent }
    ensures spent { IfOk result (λ answer. IfSome answer (λ j.
        (j ≡ judged.Spent meter.now.spent) × (meter.now.limit ≡ Some meter.now.spent))) }
    ensures stopped { IfOk result (λ answer. answer ≡ None → halt ≡ halts.Stopped) }
{
    match halt {
        Halt::Spent => Ok(Some(spent(meter))),
        Halt::Stopped => Ok(None),
        Halt::Memory => Err(Memory),
    }
}

/// None where the flag stopped it. Each failure of another property than the one asked for is told once.
pub fn ask<S: Probe, L: Sat, F: Flag>(
    alloc: Global,
    coded: &Coded,
    prop: u32,
    engine: &mut Engine<S, L>,
    meter: &mut Meter,
    flag: &mut F,
) -> Result<Option<Judgement>, Memory>
    requires within { prop < length coded.now.design.bads }
    requires engine { IsReadyFor S.count S.added coded.now engine.old }
    ensures engine { IsReadyFor S.count S.added coded.now engine.new }
    ensures judged { IfOk result (λ answer. IfSome answer
        (Settles coded.now prop meter.old.limit)) }
    ensures falls { IfOk result (λ answer. IfSome answer (λ judged.
        (judged_property judged prop ≡ prop)
        ⊎ (unset engine.new.failed < unset engine.old.failed))) }
    ensures limit { meter.new.limit ≡ meter.old.limit }
    ensures stopped { IfOk result (λ answer. answer ≡ None
        → IsFoundRaised F.may_rise F.raised flag.old flag.new) }
    ensures flag { IsPolled F.may_rise F.raised flag.old flag.new }
{
    let task = coded.task();
    let mut share = NoShare::new(task.share()?);
    match prove(alloc, coded, prop, engine, meter, flag, &mut share) {
        Ok(found) => Ok(Some(judgement(found))),
        Err(halt) => halted(halt, meter),
    }
}

/// The engine learns what the list has by now.
fn take_news<S: Probe, L: Sat, N: Naming, R: Wait>(
    rt: &R,
    alloc: Global,
    desk: &Desk<Closed, LocalFailure, N>,
    seat: &mut Seat<N>,
    coded: &Coded,
    engine: &mut Engine<S, L>,
) -> Result<(), Memory>
    requires task { problem coded.now ≡ N.task }
    requires engine { IsReadyFor S.count S.added coded.now engine.old }
    ensures seat { IsLater seat.old seat.new }
    ensures engine { IsReadyFor S.count S.added coded.now engine.new }
    ensures failed { engine.new.failed ≡ engine.old.failed }
    ensures live { OnOk result (engine.new.live ≡ engine.old.live) }
    ensures top { engine.new.search.frames.top ≡ engine.old.search.frames.top }
{
    let list = desk.import(rt, alloc, seat)?;
    learn(alloc, coded, engine, &list)?;
    Ok(())
}

/// The same while others work: where the top of the levels rises, the engine learns what the others proved meanwhile.
pub(crate) fn ask_among<S: Probe, L: Sat, F: Flag, N: Naming, R: Wait>(
    rt: &R,
    alloc: Global,
    desk: &Desk<Closed, LocalFailure, N>,
    seat: &mut Seat<N>,
    coded: &Coded,
    prop: u32,
    engine: &mut Engine<S, L>,
    meter: &mut Meter,
    flag: &mut F,
) -> Result<Option<Judgement>, Memory>
    requires within { prop < length coded.now.design.bads }
    requires task { problem coded.now ≡ N.task }
    requires engine { IsReadyFor S.count S.added coded.now engine.old }
    ensures seat { IsLater seat.old seat.new }
    ensures engine { IsReadyFor S.count S.added coded.now engine.new }
    ensures judged { IfOk result (λ answer. IfSome answer
        (Settles coded.now prop meter.old.limit)) }
    ensures falls { IfOk result (λ answer. IfSome answer (λ judged.
        (judged_property judged prop ≡ prop)
        ⊎ (unset engine.new.failed < unset engine.old.failed))) }
    ensures limit { meter.new.limit ≡ meter.old.limit }
    ensures stopped { IfOk result (λ answer. answer ≡ None
        → IsFoundRaised F.may_rise F.raised flag.old flag.new) }
    ensures flag { IsPolled F.may_rise F.raised flag.old flag.new }
{
    let _task = coded.task();
    loop {
        match advance(alloc, coded, prop, engine, meter, flag) {
            Ok(Some(found)) => return Ok(Some(judgement(found))),
            Ok(None) => take_news(rt, alloc, desk, seat, coded, engine)?,
            Err(halt) => return halted(halt, meter),
        }
    }
}

/// The property that the judgement is of, where this one was asked for.
pub fn judged_property(judged: &Judgement, prop: u32) -> u32
    ensures { result ≡ judged_property judged.now prop }
{
    match judged {
        Judged::Fails(failure) => failure.prop(),
        _ => prop,
    }
}
