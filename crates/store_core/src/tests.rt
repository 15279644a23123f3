ghost use Rattle.std.specs.Prelude.{◌<◌, ◌↔◌, length, IsTrue};

use crate::fakes::{OneClause, OneStep, opening_of};
use crate::{Board, Judged, Mark, Reply};
use ja_base::{ClosedSet, Memory};
use std::alloc::Global;
use std::test::Fail;

/// What seat 0 asks for; a property that is out of range is passed over.
#[derive(Clone, Copy)]
enum Asked {
    Draw,
    Import,
    Publish,
    Fails(u32),
    Proves(u32),
    Cancel(u32),
    GiveUp(u32),
}

fn is_in_range(board: &Board<OneClause, OneStep>, prop: u32) -> bool
    ensures { IsTrue result ↔ (prop < length board.now.opening.assumed) }
{
    prop < board.opening().assumed.len()
}

fn ask(alloc: Global, board: &mut Board<OneClause, OneStep>, asked: Asked) -> Result<(), Memory> {
    match asked {
        Asked::Draw => {
            board.draw(alloc, 0)?;
        }
        Asked::Import => {
            board.import(alloc, 0)?;
        }
        Asked::Publish => {
            board.publish(alloc, 0, &OneClause::new(alloc, true)?)?;
        }
        Asked::Fails(prop) if prop < 2 && is_in_range(board, prop) => {
            board.settle(alloc, 0, prop, Judged::Fails(OneStep::new(prop)))?;
        }
        Asked::Proves(prop) if is_in_range(board, prop) => {
            board.settle(alloc, 0, prop, Judged::Proved(OneClause::new(alloc, true)?))?;
        }
        Asked::Cancel(prop) if is_in_range(board, prop) => {
            board.cancel(0, prop)?;
        }
        Asked::GiveUp(prop) if is_in_range(board, prop) => {
            board.give_up(0, prop)?;
        }
        _ => {}
    }
    Ok(())
}

// A run that is stopped by its first failure: both properties are drawn before it is found.
const RUN: [(Asked, Reply); 11] = [
    (Asked::Draw, Reply::Job { prop: 0, upto: 0 }),
    (Asked::Draw, Reply::Job { prop: 1, upto: 0 }),
    (Asked::Fails(0), Reply::Settled { upto: 0 }),
    (Asked::GiveUp(1), Reply::GoOn),
    (Asked::Cancel(0), Reply::Cancelled),
    (Asked::Cancel(0), Reply::NotNow),
    (Asked::Draw, Reply::NoJob { upto: 0 }),
    (Asked::GiveUp(1), Reply::GaveUp),
    (
        Asked::Proves(1),
        Reply::Had {
            mark: Mark::Cancelled,
        },
    ),
    (Asked::Import, Reply::Clauses { upto: 0 }),
    (Asked::Publish, Reply::Added { upto: 1 }),
];

#[test]
fn stops_at_the_first_failure(rt: HostRuntime) -> Result<(), Fail> {
    let alloc = rt.alloc();
    let list = OneClause::new(alloc, false)?;
    let mut board: Board<OneClause, OneStep> = Board::new(alloc, opening_of(alloc)?, list)?;
    for (asked, _) in RUN {
        ask(alloc, &mut board, asked)?;
    }
    let parts = board.into_parts();
    assert_eq!(rt; parts.journal.len() as usize, RUN.len());
    for (entry, (_, reply)) in parts.journal.as_slice().iter().zip(RUN) {
        assert_eq!(rt; entry.reply, reply);
    }
    assert_eq!(rt;
        parts.marks.as_slice(),
        [Some(Mark::Fails), Some(Mark::Cancelled)].as_slice()
    );
    assert_eq!(rt; parts.list.len(), 1);
    assert_eq!(rt; parts.failures.len(), 1);
    Ok(())
}
