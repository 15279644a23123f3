//! One property that was drawn.

ghost use Rattle.std.specs.Prelude.{◌≡◌, ◌<◌, ◌⊎◌, length, IfOk};
ghost use Rattle.aig_model.specs.Task.{problem};
ghost use Rattle.store_core.specs.Judged.{IfFails};
ghost use Rattle.desk.specs.Seats.{IsLater};
ghost use Rattle.ic3_engine.specs.Engines.{IsReadyFor};
ghost use Rattle.worker_pool.specs.Judgements.{Settles, judged_property, unset};
ghost use Rattle.worker_pool.specs.Pools.{IsPool};

use crate::asking::{Judgement, ask_among};
use cancel_flag::{CancelFlag, FlagView};
use desk::{Desk, Seat};
use ic3_engine::Engine;
use inv_cert::Closed;
use ja_base::{Memory, Meter};
use ja_project::Coded;
use local_stim::LocalFailure;
use sat_plain::{Probe, Sat};
use std::alloc::Global;
use std::sync::Wait;
use store_core::{Judged, Naming, Reply};

/// What a judgement is of.
#[derive(Clone, Copy)]
struct Subject {
    prop: u32,
    /// Whether it is a failure of a property that is expected to hold.
    stops: bool,
}

/// Where this property was asked for.
fn subject_of(coded: &Coded, judged: &Judgement, prop: u32) -> Subject
    requires within { prop < length coded.now.design.bads }
    requires failure { IfFails judged.now (λ f. f.prop < length coded.now.design.bads) }
    ensures property { result.prop ≡ judged_property judged.now prop }
    ensures within { result.prop < length coded.now.design.bads }
{
    match judged {
        Judged::Fails(failure) => {
            let prop = failure.prop();
            let stops = coded.task().expect().is_assumed(prop);
            Subject { prop, stops }
        }
        _ => Subject { prop, stops: false },
    }
}

/// Where the property is one that stops the others: the flag is raised only behind a Cancel, so that a worker that is stopped finds
/// one.
fn stop_others<N: Naming, R: Wait>(
    rt: &R,
    alloc: Global,
    desk: &Desk<Closed, LocalFailure, N>,
    seat: &mut Seat<N>,
    prop: u32,
    stops: bool,
    flag: &CancelFlag,
) -> Result<(), Memory>
    requires within { prop < length N.opening.assumed }
    ensures seat { IsLater seat.old seat.new }
{
    if stops && flag.may() {
        let reply = desk.cancel(rt, alloc, seat, prop)?;
        if reply == Reply::Cancelled {
            flag.raise();
        }
    }
    Ok(())
}

/// Settles the judgement for the property that it is of, and tells which that is.
fn settle<N: Naming, R: Wait>(
    rt: &R,
    alloc: Global,
    desk: &Desk<Closed, LocalFailure, N>,
    seat: &mut Seat<N>,
    coded: &Coded,
    prop: u32,
    judged: Judgement,
    flag: &CancelFlag,
) -> Result<u32, Memory>
    requires within { prop < length coded.now.design.bads }
    requires width { length N.opening.assumed ≡ length coded.now.design.bads }
    requires task { problem coded.now ≡ N.task }
    requires judged { Settles coded.now prop N.opening.limit judged }
    ensures seat { IsLater seat.old seat.new }
    ensures settled { IfOk result (λ p. p ≡ judged_property judged prop) }
{
    let subject = subject_of(coded, &judged, prop);
    desk.settle(rt, alloc, seat, subject.prop, judged)?;
    stop_others(rt, alloc, desk, seat, subject.prop, subject.stops, flag)?;
    Ok(subject.prop)
}

/// A worker that is stopped leaves the property to its caller, unless it may be left unknown.
fn give_up<N: Naming, R: Wait>(
    rt: &R,
    alloc: Global,
    desk: &Desk<Closed, LocalFailure, N>,
    seat: &mut Seat<N>,
    prop: u32,
) -> Result<u32, Memory>
    requires within { prop < length N.opening.assumed }
    ensures seat { IsLater seat.old seat.new }
    ensures given_up { IfOk result (λ p. p ≡ prop) }
{
    desk.give_up(rt, alloc, seat, prop)?;
    Ok(prop)
}

/// Asks for the property, and settles what is answered, which may be of another one, or gives the property up. Tells which one
/// is done with.
fn turn<S: Probe, L: Sat, N: Naming, R: Wait>(
    rt: &R,
    alloc: Global,
    desk: &Desk<Closed, LocalFailure, N>,
    seat: &mut Seat<N>,
    coded: &Coded,
    prop: u32,
    engine: &mut Engine<S, L>,
    meter: &mut Meter,
    flag: &CancelFlag,
) -> Result<u32, Memory>
    requires within { prop < length coded.now.design.bads }
    requires engine { IsReadyFor S.count S.added coded.now engine.old }
    requires pool { IsPool N.opening N.task coded.now meter.old.limit flag.now.may }
    ensures seat { IsLater seat.old seat.new }
    ensures engine { IsReadyFor S.count S.added coded.now engine.new }
    ensures falls { IfOk result (λ p. (p ≡ prop)
        ⊎ (unset engine.new.failed < unset engine.old.failed)) }
    ensures limit { meter.new.limit ≡ meter.old.limit }
{
    let answer = ask_among::<S, L, FlagView<'_>, N, R>(
        rt,
        alloc,
        desk,
        seat,
        coded,
        prop,
        engine,
        meter,
        &mut flag.view(),
    )?;
    match answer {
        Some(judged) => settle(rt, alloc, desk, seat, coded, prop, judged, flag),
        None => give_up(rt, alloc, desk, seat, prop),
    }
}

/// Each property has a meter of its own. A failure of another property is settled for that one, and the engine is asked again:
/// it tells each of those once.
pub(crate) fn decide<S: Probe, L: Sat, N: Naming, R: Wait>(
    rt: &R,
    alloc: Global,
    desk: &Desk<Closed, LocalFailure, N>,
    seat: &mut Seat<N>,
    coded: &Coded,
    prop: u32,
    limit: Option<u64>,
    engine: &mut Engine<S, L>,
    flag: &CancelFlag,
) -> Result<(), Memory>
    requires within { prop < length coded.now.design.bads }
    requires engine { IsReadyFor S.count S.added coded.now engine.old }
    requires pool { IsPool N.opening N.task coded.now limit flag.now.may }
    ensures seat { IsLater seat.old seat.new }
    ensures engine { IsReadyFor S.count S.added coded.now engine.new }
{
    let mut meter = Meter::new(limit);
    loop {
        let done = turn::<S, L, N, R>(
            rt, alloc, desk, seat, coded, prop, engine, &mut meter, flag,
        )?;
        if done == prop {
            return Ok(());
        }
    }
}
