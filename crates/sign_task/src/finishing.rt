//! What is left of a sign-off once nothing more is drawn: each property gets a mark.

ghost use Rattle.std.specs.Prelude.{◌≡◌, ◌<◌, None, length, is_some, IfOk, OnOk, true};
ghost use Rattle.std.specs.Bool.{OnTrue};
ghost use Rattle.store_core.specs.Steps.{mark_of};
ghost use Rattle.ic3_engine.specs.Engines.{IsReadyFor};
ghost use Rattle.sign_task.specs.Replies.{is_gave_up};
ghost use Rattle.sign_task.specs.Underway.{IsUnderway, IsHalted, IsMarked, IsOver, Keeps};

use crate::deciding::decide;
use crate::halting::halt_all;
use crate::opening::SignBoard;
use crate::terms::Terms;
use ic3_engine::Engine;
use ja_base::Memory;
use ja_project::Coded;
use sat_plain::{Probe, Sat};
use std::alloc::Global;
use store_core::Reply;

fn is_over(coded: &Coded, terms: Terms, board: &SignBoard) -> bool
    requires underway { IsUnderway coded.now terms board.now }
    ensures { OnTrue result (IsOver coded.now board.now) }
{
    for prop in 0..coded.task().design().props() {
        if board.mark(prop).is_none() {
            return false;
        }
    }
    true
}

fn is_gave_up(reply: Reply) -> bool
    ensures { result ≡ is_gave_up reply }
{
    matches!(reply, Reply::GaveUp)
}

/// Gives the property up, where a Cancel stands. Tells whether one does.
fn give_up(coded: &Coded, terms: Terms, prop: u32, board: &mut SignBoard) -> Result<bool, Memory>
    requires within { prop < length coded.now.design.bads }
    requires underway { IsUnderway coded.now terms board.old }
    requires halted { IsHalted coded.now board.old }
    requires free { mark_of board.old.state.marks prop ≡ None }
    ensures kept { OnOk result (Keeps board.old board.new) }
    ensures halted { OnOk result (IsHalted coded.now board.new) }
    ensures marked { IfOk result (λ gave. gave ≡ true → IsMarked board.new prop) }
{
    let _task = coded.task();
    let reply = board.give_up(0, prop)?;
    Ok(is_gave_up(reply))
}

/// A property without a mark is given up, or decided.
fn close<S: Probe, L: Sat>(
    alloc: Global,
    coded: &Coded,
    terms: Terms,
    prop: u32,
    engine: &mut Engine<S, L>,
    board: &mut SignBoard,
) -> Result<(), Memory>
    requires within { prop < length coded.now.design.bads }
    requires engine { IsReadyFor S.count S.added coded.now engine.old }
    requires underway { IsUnderway coded.now terms board.old }
    requires halted { IsHalted coded.now board.old }
    ensures engine { IsReadyFor S.count S.added coded.now engine.new }
    ensures kept { OnOk result (Keeps board.old board.new) }
    ensures halted { OnOk result (IsHalted coded.now board.new) }
    ensures marked { OnOk result (IsMarked board.new prop) }
{
    let _task = coded.task();
    if board.mark(prop).is_some() {
        return Ok(());
    }
    if give_up(coded, terms, prop, board)? {
        return Ok(());
    }
    decide(alloc, coded, terms, prop, engine, board)
}

/// Each property without a mark is given up, or decided on the engine.
fn close_each<S: Probe, L: Sat>(
    alloc: Global,
    coded: &Coded,
    terms: Terms,
    engine: &mut Engine<S, L>,
    board: &mut SignBoard,
) -> Result<(), Memory>
    requires engine { IsReadyFor S.count S.added coded.now engine.old }
    requires underway { IsUnderway coded.now terms board.old }
    requires halted { IsHalted coded.now board.old }
    ensures engine { IsReadyFor S.count S.added coded.now engine.new }
    ensures underway { OnOk result (IsUnderway coded.now terms board.new) }
    ensures halted { OnOk result (IsHalted coded.now board.new) }
    ensures over { OnOk result (IsOver coded.now board.new) }
{
    for prop in 0..coded.task().design().props() {
        close(alloc, coded, terms, prop, engine, board)?;
    }
    Ok(())
}

/// The same, on an engine that knows the board's list.
fn close_all<S: Probe, L: Sat>(
    alloc: Global,
    coded: &Coded,
    terms: Terms,
    board: &mut SignBoard,
) -> Result<(), Memory>
    requires underway { IsUnderway coded.now terms board.old }
    requires halted { IsHalted coded.now board.old }
    ensures underway { OnOk result (IsUnderway coded.now terms board.new) }
    ensures halted { OnOk result (IsHalted coded.now board.new) }
    ensures over { OnOk result (IsOver coded.now board.new) }
{
    let mut engine: Engine<S, L> = Engine::new(alloc, coded, board.list())?;
    close_each(alloc, coded, terms, &mut engine, board)
}

/// Whatever was settled before, each property has a mark at the end: what had none is given up where a Cancel stands, and decided
/// where none does.
pub(crate) fn finish<S: Probe, L: Sat>(
    alloc: Global,
    coded: &Coded,
    terms: Terms,
    board: &mut SignBoard,
) -> Result<(), Memory>
    requires underway { IsUnderway coded.now terms board.old }
    ensures underway { OnOk result (IsUnderway coded.now terms board.new) }
    ensures halted { OnOk result (IsHalted coded.now board.new) }
    ensures over { OnOk result (IsOver coded.now board.new) }
{
    halt_all(coded, terms, board)?;
    if is_over(coded, terms, board) {
        return Ok(());
    }
    close_all::<S, L>(alloc, coded, terms, board)
}
