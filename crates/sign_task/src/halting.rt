//! Under fail-fast the first failure of a property that is expected to hold ends the run.

ghost use Rattle.std.specs.Prelude.{◌≡◌, ◌<◌, length, OnOk};
ghost use Rattle.store_core.specs.MarkKinds.{is_failing};
ghost use Rattle.store_core.specs.Steps.{mark_of};
ghost use Rattle.sign_task.specs.Underway.{IsUnderway, IsHalted, IsHaltedAt, KeepsMarks};

use crate::opening::SignBoard;
use crate::terms::Terms;
use ja_base::Memory;
use ja_project::Coded;
use store_core::Mark;

fn has_failed(prop: u32, board: &SignBoard) -> bool
    requires { prop < length board.now.opening.assumed }
    ensures { result ≡ is_failing (mark_of board.now.state.marks prop) }
{
    matches!(board.mark(prop), Some(Mark::Fails))
}

/// A Cancel is asked for, if the property is expected to hold and fails.
pub(crate) fn halt(
    coded: &Coded,
    terms: Terms,
    prop: u32,
    board: &mut SignBoard,
) -> Result<(), Memory>
    requires within { prop < length coded.now.design.bads }
    requires underway { IsUnderway coded.now terms board.old }
    ensures kept { OnOk result (KeepsMarks board.old board.new) }
    ensures halted { OnOk result (IsHaltedAt coded.now board.new prop) }
{
    let assumed = coded.task().expect().is_assumed(prop);
    if terms.fail_fast && assumed && has_failed(prop, board) {
        board.cancel(0, prop)?;
    }
    Ok(())
}

/// So it is done for each property.
pub(crate) fn halt_all(coded: &Coded, terms: Terms, board: &mut SignBoard) -> Result<(), Memory>
    requires underway { IsUnderway coded.now terms board.old }
    ensures kept { OnOk result (KeepsMarks board.old board.new) }
    ensures halted { OnOk result (IsHalted coded.now board.new) }
{
    for prop in 0..coded.task().design().props() {
        halt(coded, terms, prop, board)?;
    }
    Ok(())
}
