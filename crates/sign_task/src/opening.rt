//! The board of a sign-off as it begins.

ghost use Rattle.std.specs.Prelude.{◌≡◌, OnOk, IfOk};
ghost use Rattle.sign_task.specs.Underway.{IsUnderway};

use crate::terms::Terms;
use aig_model::{Expect, Task};
use inv_cert::Closed;
use ja_base::{Memory, Row};
use job_plan::plan;
use local_stim::LocalFailure;
use std::alloc::Global;
use store_core::{Board, Opening};

/// Closed lists, and failures that a replay confirmed.
pub(crate) type SignBoard = Board<Closed, LocalFailure>;

fn assumed_row(alloc: Global, expect: &Expect) -> Result<Row, Memory>
    ensures { IfOk result (λ row. row ≡ expect.now) }
{
    let mut bits = Vec::with_capacity(alloc, expect.len() as usize)?;
    for prop in 0..expect.len() {
        bits.push_reserved(expect.is_assumed(prop));
    }
    Ok(Row::from_bits(bits))
}

/// The properties are drawn as planned, on these terms.
pub(crate) fn open(alloc: Global, task: &Task, terms: Terms) -> Result<SignBoard, Memory>
    ensures underway { IfOk result (IsUnderway task.now terms) }
{
    let plan = plan(alloc, task)?;
    let assumed = assumed_row(alloc, task.expect())?;
    let opening = Opening {
        plan,
        assumed,
        fail_fast: terms.fail_fast,
        limit: terms.limit,
    };
    let list = Closed::empty(alloc, task)?;
    let board = Board::new(alloc, opening, list)?;
    Ok(board)
}
