//! The desk, and its seats.

ghost use Rattle.std.specs.Prelude.{◌≡◌, ◌≢◌, ◌+◌, ◌<◌, IfOk};
ghost use Rattle.desk.specs.Seats.{IsLast};

use crate::locked::Locked;
use crate::seat::Seat;
use ja_base::{ClosedSet, Memory, Shown};
use std::alloc::Global;
use std::marker::PhantomData;
use std::sync::Mutex;
use store_core::{Board, Naming};

/// A board that is shared by reference. A call that waits for another's turn keeps its promise if it returns.
#[derive(Drop)]
pub struct Desk<C: ClosedSet, V: Shown, N: Naming> {
    pub(crate) board: Mutex<Locked<C, V, N>>,
}

impl<C: ClosedSet, V: Shown, N: Naming> Desk<C, V, N> {
    /// The board moves in. Its first seat has the number 0.
    pub fn start(_alloc: Global, board: Board<C, V>) -> Result<(Desk<C, V, N>, Seat<N>), Memory>
        requires opening { board.opening ≡ N.opening }
        requires task { C.task board.list ≡ N.task }
        ensures seat { IfOk result (λ r. r.1 ≡ record { number = 0; made = 0; joined = 0 }) }
    {
        let locked = Locked {
            board,
            of: PhantomData,
        };
        let desk = Desk {
            board: Mutex::new(locked),
        };
        Ok((
            desk,
            Seat {
                number: 0,
                made: 0,
                joined: 0,
                of: PhantomData,
            },
        ))
    }

    /// Another seat, with the next number. Only the seat of `start` splits, at most eight times.
    pub fn split(&self, seat: &mut Seat<N>) -> Seat<N>
        requires first { seat.old.number ≡ 0 }
        requires few { seat.old.made < 8 }
        ensures seat { seat.new ≡ record seat.old { made = seat.old.made + 1 } }
        ensures other { result ≡ record { number = seat.old.made + 1; made = 0; joined = 0 } }
    {
        seat.made += 1;
        Seat {
            number: seat.made,
            made: 0,
            joined: 0,
            of: PhantomData,
        }
    }

    /// Takes back a seat that was split off.
    pub fn join(&self, seat: &mut Seat<N>, other: Seat<N>)
        requires first { seat.old.number ≡ 0 }
        requires left { seat.old.joined < seat.old.made }
        requires other { other.number ≢ 0 }
        ensures { seat.new ≡ record seat.old { joined = seat.old.joined + 1 } }
    {
        let _ = other;
        seat.joined += 1;
    }

    /// The board as it is in the end, once each seat was joined.
    pub fn close(self, seat: Seat<N>) -> Board<C, V>
        requires { IsLast seat }
        ensures opening { result.opening ≡ N.opening }
        ensures task { C.task result.list ≡ N.task }
    {
        let _ = seat;
        let Locked { board, .. } = self.board.into_inner();
        board
    }
}
