//! Rows of random bits.

ghost use Rattle.std.specs.Prelude.{◌≡◌, length, IfOk, ⊤};
ghost use Rattle.aig_model.specs.Netlist.{IsSound};

use aig_model::{Design, Reset};
use ja_base::{Memory, Row};
use rand_core::Rng;
use rand_pcg::Pcg32;
use std::alloc::Global;

fn random_bit(random: &mut Pcg32) -> bool
    ensures { ⊤ }
{
    random.next_u32() % 2 == 1
}

/// A row of so many random bits.
pub(crate) fn random_row(alloc: Global, random: &mut Pcg32, len: u32) -> Result<Row, Memory>
    ensures { IfOk result (λ row. length row ≡ len) }
{
    let mut row = Row::zeros(alloc, len)?;
    for at in 0..len {
        row.set(at, random_bit(random));
    }
    Ok(row)
}

/// A latch row as the resets give it; a latch that may hold either bit holds a random one.
pub(crate) fn first_row(alloc: Global, random: &mut Pcg32, design: &Design) -> Result<Row, Memory>
    ensures { IfOk result (λ row. length row ≡ length design.now.latches) }
{
    let mut row = random_row(alloc, random, design.latches())?;
    for at in 0..design.latches() {
        match design.latch(at).reset {
            Reset::Zero => row.set(at, false),
            Reset::One => row.set(at, true),
            Reset::Free => {}
        }
    }
    Ok(row)
}
