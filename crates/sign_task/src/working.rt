//! The workers' part of a sign-off: the board moves to a desk, and comes back.

ghost use Rattle.std.specs.Prelude.{◌≡◌, ◌≤◌, IfOk};
ghost use Rattle.aig_model.specs.Task.{problem};
ghost use Rattle.sign_task.specs.Underway.{IsUnderway};

use crate::opening::SignBoard;
use crate::terms::Terms;
use cancel_flag::CancelFlag;
use desk::Desk;
use inv_cert::Closed;
use ja_base::Memory;
use ja_outside::Gate;
use ja_project::Coded;
use local_stim::LocalFailure;
use sat_plain::{Probe, Sat};
use std::alloc::Global;
use std::marker::Brand;
use std::sync::Wait;
use std::thread::Threads;
use store_core::Naming;
use worker_pool::work_all;

/// `N` names the board's opening and its task.
fn worked<S: Probe + Send, L: Sat + Send, G: Gate + Sync, N: Naming, R: Threads + Wait + Sync>(
    rt: &R,
    alloc: Global,
    board: SignBoard,
    coded: &Coded,
    terms: Terms,
    workers: u32,
    gate: &G,
) -> Result<SignBoard, Memory>
    requires opening { board.opening ≡ N.opening }
    requires task { problem board.list.task ≡ N.task }
    requires underway { IsUnderway coded.now terms board }
    requires some { 1 ≤ workers }
    requires few { workers ≤ 8 }
    ensures opening { IfOk result (λ after. after.opening ≡ N.opening) }
    ensures task { IfOk result (λ after. problem after.list.task ≡ N.task) }
{
    let _task = coded.task();
    let flag = CancelFlag::new(terms.fail_fast);
    let (desk, seat) = Desk::<Closed, LocalFailure, N>::start(alloc, board)?;
    let seat = work_all::<S, L, G, N, R>(
        rt,
        alloc,
        &desk,
        seat,
        coded,
        workers,
        terms.limit,
        &flag,
        gate,
    )?;
    Ok(desk.close(seat))
}

/// So many workers decide what the plan of the board gives them. Which properties have a mark then is not said.
pub(crate) fn work<S: Probe + Send, L: Sat + Send, G: Gate + Sync, R: Threads + Wait + Sync>(
    rt: &R,
    alloc: Global,
    board: SignBoard,
    coded: &Coded,
    terms: Terms,
    workers: u32,
    gate: &G,
) -> Result<SignBoard, Memory>
    requires underway { IsUnderway coded.now terms board }
    requires some { 1 ≤ workers }
    requires few { workers ≤ 8 }
    ensures underway { IfOk result (IsUnderway coded.now terms) }
{
    let board = worked::<S, L, G, Brand, R>(rt, alloc, board, coded, terms, workers, gate)?;
    let _ = board.list();
    Ok(board)
}
