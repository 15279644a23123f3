//! The seat of a worker.

ghost use Rattle.std.specs.Prelude.{◌≡◌, ◌≢◌};

use desk::Seat;
use store_core::Naming;

/// A seat that was split off, so that it can be joined.
#[derive(Drop)]
pub(crate) struct OwnSeat<N: Naming> {
    pub(crate) seat: Seat<N>,
    pub(crate) ghost split_off: { seat.number ≢ 0 },
}

impl<N: Naming> OwnSeat<N> {
    pub(crate) fn of(seat: Seat<N>) -> OwnSeat<N>
        requires { seat.number ≢ 0 }
        ensures { result.seat ≡ seat }
    {
        OwnSeat { seat }
    }
}
