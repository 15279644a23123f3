//! The work of one worker.

ghost use Rattle.std.specs.Prelude.{◌≡◌, ◌<◌, length, IfOk, IfSome};
ghost use Rattle.aig_model.specs.Task.{problem};
ghost use Rattle.desk.specs.Seats.{IsLater};
ghost use Rattle.ic3_engine.specs.Engines.{IsReadyFor};
ghost use Rattle.worker_pool.specs.Pools.{IsPool};

use crate::deciding::decide;
use crate::own_seat::OwnSeat;
use cancel_flag::CancelFlag;
use desk::{Desk, Seat};
use ic3_engine::{Engine, learn};
use inv_cert::Closed;
use ja_base::Memory;
use ja_outside::{Gate, GatePoint};
use ja_project::Coded;
use local_stim::LocalFailure;
use sat_plain::{Probe, Sat};
use std::alloc::Global;
use std::sync::Wait;
use store_core::{Drawn, Naming};

/// The next property, and the list that comes with it.
fn next<N: Naming, R: Wait>(
    rt: &R,
    alloc: Global,
    desk: &Desk<Closed, LocalFailure, N>,
    seat: &mut Seat<N>,
) -> Result<Option<(u32, Closed)>, Memory>
    ensures seat { IsLater seat.old seat.new }
    ensures within { IfOk result (λ next. IfSome next (λ job. job.0 < length N.opening.assumed)) }
    ensures view { IfOk result (λ next. IfSome next (λ job. problem job.1.task ≡ N.task)) }
{
    match desk.draw(rt, alloc, seat)? {
        Drawn::Job { prop, view } => Ok(Some((prop, view))),
        Drawn::NoJob { .. } => Ok(None),
    }
}

/// What was drawn is decided between the two points of the gate.
fn answer<S: Probe, L: Sat, G: Gate, N: Naming, R: Wait>(
    rt: &R,
    alloc: Global,
    desk: &Desk<Closed, LocalFailure, N>,
    seat: &mut Seat<N>,
    coded: &Coded,
    prop: u32,
    limit: Option<u64>,
    engine: &mut Engine<S, L>,
    flag: &CancelFlag,
    gate: &G,
) -> Result<(), Memory>
    requires within { prop < length coded.now.design.bads }
    requires engine { IsReadyFor S.count S.added coded.now engine.old }
    requires pool { IsPool N.opening N.task coded.now limit flag.now.may }
    ensures seat { IsLater seat.old seat.new }
    ensures engine { IsReadyFor S.count S.added coded.now engine.new }
{
    gate.pass(GatePoint::Drawn);
    decide::<S, L, N, R>(rt, alloc, desk, seat, coded, prop, limit, engine, flag)?;
    gate.pass(GatePoint::Answered);
    Ok(())
}

/// Decides the first property, and each further one that the desk gives, until it gives none. The engine takes up what is new in
/// each further list.
fn decide_on<S: Probe, L: Sat, G: Gate, N: Naming, R: Wait>(
    rt: &R,
    alloc: Global,
    desk: &Desk<Closed, LocalFailure, N>,
    seat: &mut Seat<N>,
    coded: &Coded,
    first: u32,
    limit: Option<u64>,
    engine: &mut Engine<S, L>,
    flag: &CancelFlag,
    gate: &G,
) -> Result<(), Memory>
    requires within { first < length coded.now.design.bads }
    requires engine { IsReadyFor S.count S.added coded.now engine.old }
    requires pool { IsPool N.opening N.task coded.now limit flag.now.may }
    ensures seat { IsLater seat.old seat.new }
    ensures engine { IsReadyFor S.count S.added coded.now engine.new }
{
    answer(
        rt, alloc, desk, seat, coded, first, limit, engine, flag, gate,
    )?;
    for _ in rt.forever() {
        let Some((prop, view)) = next(rt, alloc, desk, seat)? else {
            break;
        };
        learn(alloc, coded, engine, &view)?;
        answer(
            rt, alloc, desk, seat, coded, prop, limit, engine, flag, gate,
        )?;
    }
    Ok(())
}

/// Decides each property that the desk gives. The engine knows the first list that was drawn.
fn decide_drawn<S: Probe, L: Sat, G: Gate, N: Naming, R: Wait>(
    rt: &R,
    alloc: Global,
    desk: &Desk<Closed, LocalFailure, N>,
    seat: &mut Seat<N>,
    coded: &Coded,
    limit: Option<u64>,
    flag: &CancelFlag,
    gate: &G,
) -> Result<(), Memory>
    requires pool { IsPool N.opening N.task coded.now limit flag.now.may }
    ensures seat { IsLater seat.old seat.new }
{
    let Some((prop, view)) = next(rt, alloc, desk, seat)? else {
        return Ok(());
    };
    let mut engine: Engine<S, L> = Engine::new(alloc, coded, &view)?;
    decide_on(
        rt,
        alloc,
        desk,
        seat,
        coded,
        prop,
        limit,
        &mut engine,
        flag,
        gate,
    )
}

/// A worker keeps its seat, which comes back.
pub(crate) fn work<S: Probe, L: Sat, G: Gate, N: Naming, R: Wait>(
    rt: &R,
    alloc: Global,
    desk: &Desk<Closed, LocalFailure, N>,
    own: OwnSeat<N>,
    coded: &Coded,
    limit: Option<u64>,
    flag: &CancelFlag,
    gate: &G,
) -> Result<OwnSeat<N>, Memory>
    requires pool { IsPool N.opening N.task coded.now limit flag.now.may }
{
    let mut seat = own.seat;
    decide_drawn::<S, L, G, N, R>(rt, alloc, desk, &mut seat, coded, limit, flag, gate)?;
    Ok(OwnSeat { seat })
}
