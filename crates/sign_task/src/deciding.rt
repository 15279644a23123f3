//! A property that the workers left open.

ghost use Rattle.std.specs.Prelude.{◌<◌, length, OnOk};
ghost use Rattle.ic3_engine.specs.Engines.{IsReadyFor};
ghost use Rattle.sign_task.specs.Underway.{IsUnderway, IsHalted, IsMarked, Keeps};

use crate::asking::turn;
use crate::opening::SignBoard;
use crate::terms::Terms;
use ic3_engine::Engine;
use ja_base::{Memory, Meter};
use ja_project::Coded;
use sat_plain::{Probe, Sat};
use std::alloc::Global;

/// A failure of another property is settled for that one, and the engine is asked again. It tells each of those once.
pub(crate) fn decide<S: Probe, L: Sat>(
    alloc: Global,
    coded: &Coded,
    terms: Terms,
    prop: u32,
    engine: &mut Engine<S, L>,
    board: &mut SignBoard,
) -> Result<(), Memory>
    requires within { prop < length coded.now.design.bads }
    requires engine { IsReadyFor S.count S.added coded.now engine.old }
    requires underway { IsUnderway coded.now terms board.old }
    requires halted { IsHalted coded.now board.old }
    ensures engine { IsReadyFor S.count S.added coded.now engine.new }
    ensures kept { OnOk result (Keeps board.old board.new) }
    ensures halted { OnOk result (IsHalted coded.now board.new) }
    ensures marked { OnOk result (IsMarked board.new prop) }
{
    let mut meter = Meter::new(terms.limit);
    loop {
        let settled = turn::<S, L>(alloc, coded, terms, prop, engine, &mut meter, board)?;
        if settled == prop {
            return Ok(());
        }
    }
}
