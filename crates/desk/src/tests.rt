ghost use Rattle.std.specs.Prelude.{◌≡◌, IfOk};
ghost use Rattle.desk.specs.Seats.{IsLater};

use crate::fakes::{OneClause, OneStep, TwoBroken, opening_of};
use crate::{Desk, Seat};
use ja_base::{ClosedSet, Memory};
use std::alloc::Global;
use std::sync::Wait;
use std::test::Fail;
use store_core::{Board, Drawn, Judged, Mark, Parts, Reply};

/// What a seat asks for; a property that is out of range is passed over.
#[derive(Clone, Copy)]
enum Asked {
    Draw,
    Import,
    Publish,
    Fails(u32),
    Proves(u32),
    Cancel(u32),
    GiveUp(u32),
}

/// The property that was drawn, if one was.
fn job_of(drawn: &Drawn<OneClause>) -> Option<u32> {
    match drawn {
        Drawn::Job { prop, .. } => Some(*prop),
        Drawn::NoJob { .. } => None,
    }
}

fn ask<R: Wait>(
    rt: &R,
    alloc: Global,
    desk: &Desk<OneClause, OneStep, TwoBroken>,
    seat: &mut Seat<TwoBroken>,
    asked: Asked,
) -> Result<Reply, Memory>
    ensures { IsLater seat.old seat.new }
{
    match asked {
        Asked::Draw => {
            let drawn = desk.draw(rt, alloc, seat)?;
            match job_of(&drawn) {
                Some(prop) => Ok(Reply::Job { prop, upto: 0 }),
                None => Ok(Reply::NoJob { upto: 0 }),
            }
        }
        Asked::Import => {
            let list = desk.import(rt, alloc, seat)?;
            Ok(Reply::Clauses { upto: list.len() })
        }
        Asked::Publish => {
            let upto = desk.publish(rt, alloc, seat, &OneClause::new(alloc, true)?)?;
            Ok(Reply::Added { upto })
        }
        Asked::Fails(prop) if prop < 2 => {
            desk.settle(rt, alloc, seat, prop, Judged::Fails(OneStep::new(prop)))
        }
        Asked::Proves(prop) if prop < 2 => {
            desk.settle(
                rt,
                alloc,
                seat,
                prop,
                Judged::Proved(OneClause::new(alloc, true)?),
            )
        }
        Asked::Cancel(prop) if prop < 2 => desk.cancel(rt, alloc, seat, prop),
        Asked::GiveUp(prop) if prop < 2 => desk.give_up(rt, alloc, seat, prop),
        _ => Ok(Reply::NotNow),
    }
}

// A run that is stopped by its first failure: both properties are drawn before it is found.
const RUN: [(Asked, Reply); 11] = [
    (Asked::Draw, Reply::Job { prop: 0, upto: 0 }),
    (Asked::Draw, Reply::Job { prop: 1, upto: 0 }),
    (Asked::Fails(0), Reply::Settled { upto: 0 }),
    (Asked::GiveUp(1), Reply::GoOn),
    (Asked::Cancel(0), Reply::Cancelled),
    (Asked::Cancel(0), Reply::NotNow),
    (Asked::Draw, Reply::NoJob { upto: 0 }),
    (Asked::GiveUp(1), Reply::GaveUp),
    (
        Asked::Proves(1),
        Reply::Had {
            mark: Mark::Cancelled,
        },
    ),
    (Asked::Import, Reply::Clauses { upto: 0 }),
    (Asked::Publish, Reply::Added { upto: 1 }),
];

/// Whether the desk replies so to what is asked for, one after the other.
fn are_replies<R: Wait>(
    rt: &R,
    alloc: Global,
    desk: &Desk<OneClause, OneStep, TwoBroken>,
    seat: &mut Seat<TwoBroken>,
    run: &[(Asked, Reply)],
) -> Result<bool, Memory>
    ensures { IsLater seat.old seat.new }
{
    for (asked, reply) in run {
        if ask(rt, alloc, desk, seat, *asked)? != *reply {
            return Ok(false);
        }
    }
    Ok(true)
}

fn has_run(parts: &Parts<OneClause, OneStep>) -> bool {
    if parts.journal.len() as usize != RUN.len() {
        return false;
    }
    for (entry, (_, reply)) in parts.journal.as_slice().iter().zip(RUN) {
        if entry.seat != 0 || entry.reply != reply {
            return false;
        }
    }
    true
}

fn start(alloc: Global) -> Result<(Desk<OneClause, OneStep, TwoBroken>, Seat<TwoBroken>), Memory>
    ensures { IfOk result (λ r. r.1 ≡ record { number = 0; made = 0; joined = 0 }) }
{
    let list = OneClause::new(alloc, false)?;
    let board: Board<OneClause, OneStep> = Board::new(alloc, opening_of(alloc)?, list)?;
    let started = Desk::start(alloc, board)?;
    Ok(started)
}

fn is_closed_so(board: Board<OneClause, OneStep>) -> bool {
    let parts = board.into_parts();
    has_run(&parts)
        && parts.marks.as_slice() == [Some(Mark::Fails), Some(Mark::Cancelled)].as_slice()
        && parts.list.len() == 1
        && parts.failures.len() == 1
}

#[test]
fn replies_as_a_board(rt: HostRuntime) -> Result<(), Fail> {
    let alloc = rt.alloc();
    let (desk, mut seat) = start(alloc)?;
    assert!(rt; are_replies(&rt, alloc, &desk, &mut seat, &RUN)?);
    assert!(rt; is_closed_so(desk.close(seat)));
    Ok(())
}

#[test]
fn replies_so_behind_a_join(rt: HostRuntime) -> Result<(), Fail> {
    let alloc = rt.alloc();
    let (desk, mut seat) = start(alloc)?;
    assert!(rt; are_replies(&rt, alloc, &desk, &mut seat, &RUN[..10])?);
    let other = desk.split(&mut seat);
    desk.join(&mut seat, other);
    assert!(rt; are_replies(&rt, alloc, &desk, &mut seat, &RUN[10..])?);
    assert!(rt; is_closed_so(desk.close(seat)));
    Ok(())
}
