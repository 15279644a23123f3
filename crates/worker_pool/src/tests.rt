//! Boards that workers decide, one or two of them.

ghost use Rattle.std.specs.Prelude.{◌≡◌, ◌≤◌, length};
ghost use Rattle.aig_model.specs.Task.{problem};

mod no_rows;
mod rings;

use crate::tests::no_rows::NoRows;
use crate::tests::rings::{EIGHT, LATER, RING, TWO, open, ring_list};
use crate::work_all;
use cancel_flag::CancelFlag;
use desk::Desk;
use inv_cert::Closed;
use ja_base::Memory;
use ja_outside::{Gate, HoldGate};
use ja_project::Coded;
use ja_std::OpenGate;
use local_stim::LocalFailure;
use sat_plain::{PlainSat, Probe, Sat};
use std::alloc::Global;
use std::marker::Brand;
use std::sync::Wait;
use std::test::Fail;
use std::thread::Threads;
use store_core::Mark::{Cancelled, Fails, Proved};
use store_core::{Board, Event, Mark, Naming, Parts, Reply};

type SignBoard = Board<Closed, LocalFailure>;

fn raise_if(flag: &CancelFlag, raised: bool) {
    if raised && flag.may() {
        flag.raise();
    }
}

/// The list is published before the workers begin; the flag may be raised then.
fn worked<S: Probe + Send, L: Sat + Send, G: Gate + Sync, N: Naming, R: Threads + Wait + Sync>(
    rt: &R,
    alloc: Global,
    board: SignBoard,
    coded: &Coded,
    list: &Closed,
    workers: u32,
    raised: bool,
    gate: &G,
) -> Result<SignBoard, Memory>
    requires opening { board.opening ≡ N.opening }
    requires task { problem board.list.task ≡ N.task }
    requires coded { problem coded.now ≡ N.task }
    requires list { problem list.now.task ≡ N.task }
    requires width { length N.opening.assumed ≡ length coded.now.design.bads }
    requires some { 1 ≤ workers }
    requires few { workers ≤ 8 }
{
    let limit = board.opening().limit;
    let flag = CancelFlag::new(board.opening().fail_fast);
    let (desk, mut seat) = Desk::<Closed, LocalFailure, N>::start(alloc, board)?;
    desk.publish(rt, alloc, &mut seat, list)?;
    raise_if(&flag, raised);
    let seat = work_all::<S, L, G, N, R>(
        rt, alloc, &desk, seat, coded, workers, limit, &flag, gate,
    )?;
    Ok(desk.close(seat))
}

/// What a board leaves, where so many workers decide it.
fn left_by<S: Probe + Send, L: Sat + Send, G: Gate + Sync, R: Threads + Wait + Sync>(
    rt: &R,
    alloc: Global,
    board: SignBoard,
    coded: &Coded,
    list: &Closed,
    workers: u32,
    raised: bool,
    gate: &G,
) -> Result<Parts<Closed, LocalFailure>, Memory>
    requires task { problem board.list.task ≡ problem coded.now }
    requires list { problem list.now.task ≡ problem coded.now }
    requires width { length board.opening.assumed ≡ length coded.now.design.bads }
    requires some { 1 ≤ workers }
    requires few { workers ≤ 8 }
{
    let board = worked::<S, L, G, Brand, R>(rt, alloc, board, coded, list, workers, raised, gate)?;
    Ok(board.into_parts())
}

/// How many entries settle a property, and how many seats have one.
fn settled(parts: &Parts<Closed, LocalFailure>) -> (u32, u32) {
    let mut seats = [false; 9];
    let mut entries = 0u32;
    for entry in parts.journal.as_slice() {
        if let (Event::Settle { .. }, Some(seat)) = (
            &entry.event,
            seats.get_mut(entry.seat as usize),
        ) {
            *seat = true;
            entries = entries.saturating_add(1);
        }
    }
    let mut count = 0u32;
    for seat in seats {
        if seat {
            count = count.saturating_add(1);
        }
    }
    (entries, count)
}

fn has_reply(parts: &Parts<Closed, LocalFailure>, reply: Reply) -> bool {
    parts
        .journal
        .as_slice()
        .iter()
        .any(|entry| entry.reply == reply)
}

fn imports(parts: &Parts<Closed, LocalFailure>) -> usize {
    parts
        .journal
        .as_slice()
        .iter()
        .filter(|entry| matches!(entry.event, Event::Import))
        .count()
}

#[test]
fn two_workers_meet(rt: HostRuntime) -> Result<(), Fail> {
    let alloc = rt.alloc();
    let (board, coded) = open(alloc, RING, false, None).ok_or("no design")?;
    let gate = HoldGate::new(200_000_000);
    let list = Closed::empty(alloc, coded.task())?;
    let parts = left_by::<PlainSat, PlainSat, HoldGate, HostRuntime>(
        &rt, alloc, board, &coded, &list, 2, false, &gate,
    )?;
    assert!(rt; gate.met());
    assert_eq!(rt; settled(&parts), (3, 2));
    assert_eq!(rt; parts.marks.as_slice(), [Some(Proved); 3].as_slice());
    Ok(())
}

// A worker that does not take up the clauses that come with a property meets a row, for which there is no room.
#[test]
fn shares_published_clauses(rt: HostRuntime) -> Result<(), Fail> {
    let alloc = rt.alloc();
    let limit = Some(1_000_000_000_000);
    let (board, coded) = open(alloc, RING, false, limit).ok_or("no design")?;
    let list = ring_list(alloc, &coded)?.ok_or("not closed")?;
    let parts = left_by::<NoRows, NoRows, OpenGate, HostRuntime>(
        &rt, alloc, board, &coded, &list, 2, false, &OpenGate,
    )?;
    assert_eq!(rt; parts.marks.as_slice(), [Some(Proved); 3].as_slice());
    Ok(())
}

#[test]
fn meets_a_row_without_them(rt: HostRuntime) -> Result<(), Fail> {
    let alloc = rt.alloc();
    let (board, coded) = open(alloc, RING, false, None).ok_or("no design")?;
    let list = Closed::empty(alloc, coded.task())?;
    let left = left_by::<NoRows, NoRows, OpenGate, HostRuntime>(
        &rt, alloc, board, &coded, &list, 2, false, &OpenGate,
    );
    assert!(rt; left.is_err());
    Ok(())
}

// Each of eight properties takes some units, and all of them more than one may take.
#[test]
fn has_a_budget_for_each_property(rt: HostRuntime) -> Result<(), Fail> {
    let alloc = rt.alloc();
    for workers in [1, 2] {
        let (board, coded) = open(alloc, EIGHT, false, Some(4)).ok_or("no design")?;
        let list = Closed::empty(alloc, coded.task())?;
        let parts = left_by::<PlainSat, PlainSat, OpenGate, HostRuntime>(
            &rt, alloc, board, &coded, &list, workers, false, &OpenGate,
        )?;
        assert_eq!(rt; parts.marks.as_slice(), [Some(Proved); 8].as_slice());
    }
    Ok(())
}

// At the level 1 the cube of the third latch is blocked. At the level 2 that of the second one is blocked at the level 1 and waits
// again one level higher, where the first latch leads to it in two steps from the start: so the top rises once.
#[test]
fn looks_at_the_list_where_the_top_rises(rt: HostRuntime) -> Result<(), Fail> {
    let alloc = rt.alloc();
    let (board, coded) = open(alloc, LATER, false, None).ok_or("no design")?;
    let list = Closed::empty(alloc, coded.task())?;
    let parts = left_by::<PlainSat, PlainSat, OpenGate, HostRuntime>(
        &rt, alloc, board, &coded, &list, 1, false, &OpenGate,
    )?;
    assert_eq!(rt; parts.marks.as_slice(), [Some(Fails)].as_slice());
    assert_eq!(rt; imports(&parts), 1);
    Ok(())
}

// The first of two properties fails. One worker draws no other one then.
#[test]
fn stops_one_worker_at_a_failure(rt: HostRuntime) -> Result<(), Fail> {
    let alloc = rt.alloc();
    let (board, coded) = open(alloc, TWO, true, None).ok_or("no design")?;
    let list = Closed::empty(alloc, coded.task())?;
    let parts = left_by::<PlainSat, PlainSat, OpenGate, HostRuntime>(
        &rt, alloc, board, &coded, &list, 1, false, &OpenGate,
    )?;
    assert_eq!(rt; parts.marks.as_slice(), [Some(Fails), None].as_slice());
    assert!(rt; has_reply(&parts, Reply::Cancelled));
    Ok(())
}

// The second property was decided, given up, or not drawn.
#[test]
fn stops_two_workers_at_a_failure(rt: HostRuntime) -> Result<(), Fail> {
    let alloc = rt.alloc();
    let (board, coded) = open(alloc, TWO, true, None).ok_or("no design")?;
    let list = Closed::empty(alloc, coded.task())?;
    let parts = left_by::<PlainSat, PlainSat, OpenGate, HostRuntime>(
        &rt, alloc, board, &coded, &list, 2, false, &OpenGate,
    )?;
    assert_eq!(rt; parts.marks.first(), Some(&Some(Fails)));
    let second: Option<&Option<Mark>> = parts.marks.get(1);
    assert!(rt; matches!(second, Some(None | Some(Proved | Cancelled))));
    assert!(rt; has_reply(&parts, Reply::Cancelled));
    Ok(())
}

// A flag that was raised stops each worker at once, and where no Cancel stands the properties are left to the caller.
#[test]
fn leaves_what_was_stopped(rt: HostRuntime) -> Result<(), Fail> {
    let alloc = rt.alloc();
    let (board, coded) = open(alloc, RING, true, None).ok_or("no design")?;
    let list = Closed::empty(alloc, coded.task())?;
    let parts = left_by::<PlainSat, PlainSat, OpenGate, HostRuntime>(
        &rt, alloc, board, &coded, &list, 2, true, &OpenGate,
    )?;
    assert_eq!(rt; parts.marks.as_slice(), [None; 3].as_slice());
    assert!(rt; has_reply(&parts, Reply::GoOn));
    assert_eq!(rt; settled(&parts), (0, 0));
    Ok(())
}
