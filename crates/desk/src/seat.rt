//! A place at a desk.

ghost use Rattle.std.specs.Prelude.{◌≡◌};
ghost use Rattle.desk.specs.Seats.{IsWithin};

use std::marker::{Model, PhantomData};
use store_core::Naming;

/// Who asks: each worker has a seat of its own, and 0 is the number of the one that `start` gives. A seat of a desk of another
/// naming is of another type.
#[derive(Drop)]
pub struct Seat<N: Naming> {
    pub(crate) number: u32,
    pub(crate) made: u32,
    pub(crate) joined: u32,
    pub(crate) of: PhantomData<N>,
}

impl<N: Naming> Model for Seat<N> {
    ghost use Rattle.desk.specs.Seats.{SeatValue, IsWithin};

    ghost Value = { SeatValue };

    ghost view = { λ s. record { number = s.number; made = s.made; joined = s.joined } };

    ghost invariant = { λ s. IsWithin (record {
      number = s.number;
      made = s.made;
      joined = s.joined;
    }) };
}

impl<N: Naming> Seat<N> {
    pub fn number(&self) -> u32
        ensures { result ≡ self.now.number }
    {
        self.number
    }

    /// How many seats were split off it.
    pub fn made(&self) -> u32
        ensures value { result ≡ self.now.made }
        ensures within { IsWithin self.now }
    {
        self.made
    }

    /// How many of these were joined.
    pub fn joined(&self) -> u32
        ensures { result ≡ self.now.joined }
    {
        self.joined
    }
}
