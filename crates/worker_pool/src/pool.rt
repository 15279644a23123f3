//! All workers.

ghost use Rattle.std.specs.Prelude.{◌≡◌, ◌+◌, ◌≤◌, ◌<◌, length, vec_len, IfOk, OnOk};
ghost use Rattle.desk.specs.Seats.{IsLast};
ghost use Rattle.worker_pool.specs.Pools.{IsPool};

use crate::own_seat::OwnSeat;
use crate::work::work;
use cancel_flag::CancelFlag;
use desk::{Desk, Seat};
use inv_cert::Closed;
use ja_base::Memory;
use ja_outside::Gate;
use ja_project::Coded;
use local_stim::LocalFailure;
use sat_plain::{Probe, Sat};
use std::alloc::Global;
use std::sync::Wait;
use std::thread;
use std::thread::Threads;
use store_core::Naming;

/// A seat for each worker.
fn split_all<N: Naming>(
    alloc: Global,
    desk: &Desk<Closed, LocalFailure, N>,
    seat: &mut Seat<N>,
    workers: u32,
) -> Result<Vec<OwnSeat<N>>, Memory>
    requires first { seat.old.number ≡ 0 }
    requires new { seat.old.made ≡ 0 }
    requires few { workers ≤ 8 }
    ensures seat { OnOk result (seat.new ≡ record { number = 0; made = workers; joined = 0 }) }
    ensures seats { IfOk result (λ seats. vec_len seats ≡ workers) }
{
    let _none = seat.made();
    let mut seats = Vec::with_capacity(alloc, workers as usize)?;
    for _ in 0..workers {
        seats.push_reserved(OwnSeat::of(desk.split(seat)));
    }
    Ok(seats)
}

/// Each worker's seat is joined, where it came back.
fn join_all<N: Naming>(
    desk: &Desk<Closed, LocalFailure, N>,
    seat: &mut Seat<N>,
    seats: Vec<Result<OwnSeat<N>, Memory>>,
) -> Result<(), Memory>
    requires seat { seat.old ≡ record { number = 0; made = vec_len seats; joined = 0 } }
    ensures seat { OnOk result (IsLast seat.new) }
{
    let mut seats = seats;
    while let Some(own) = seats.pop() {
        desk.join(seat, own?.seat);
    }
    Ok(())
}

/// So many workers, from 1 to 8, decide what the desk gives them. The seat is that of `start`; it comes back once all that it
/// made are joined, so that the desk can be closed. Each worker passes the gate once it has drawn and once it has answered.
pub fn work_all<
    S: Probe + Send,
    L: Sat + Send,
    G: Gate + Sync,
    N: Naming,
    R: Threads + Wait + Sync,
>(
    rt: &R,
    alloc: Global,
    desk: &Desk<Closed, LocalFailure, N>,
    seat: Seat<N>,
    coded: &Coded,
    workers: u32,
    limit: Option<u64>,
    flag: &CancelFlag,
    gate: &G,
) -> Result<Seat<N>, Memory>
    requires some { 1 ≤ workers }
    requires few { workers ≤ 8 }
    requires first { seat.number ≡ 0 }
    requires new { seat.made ≡ 0 }
    requires pool { IsPool N.opening N.task coded.now limit flag.now.may }
    ensures seat { IfOk result (λ seat. IsLast seat) }
{
    let mut seat = seat;
    let jobs = split_all(alloc, desk, &mut seat, workers)?;
    let seats = thread::map_vec(
        rt,
        jobs,
        &|own: OwnSeat<N>| -> Result<OwnSeat<N>, Memory>
            requires { IsPool N.opening N.task coded.now limit flag.now.may }
        { work::<S, L, G, N, R>(rt, alloc, desk, own, coded, limit, flag, gate) },
    )?;
    join_all(desk, &mut seat, seats)?;
    Ok(seat)
}
