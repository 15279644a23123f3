//! What becomes of a question to the engine of the calling thread.

ghost use Rattle.std.specs.Prelude.{◌≡◌, ◌<◌, ◌⊎◌, length, IfOk, OnOk};
ghost use Rattle.ic3_engine.specs.Engines.{IsReadyFor};
ghost use Rattle.worker_pool.specs.Judgements.{Settles, judged_property, unset};
ghost use Rattle.sign_task.specs.Underway.{IsUnderway, IsHalted, IsMarked, Keeps};

use crate::halting::halt;
use crate::opening::SignBoard;
use crate::terms::Terms;
use ic3_engine::Engine;
use ja_base::{Memory, Meter};
use ja_outside::NoFlag;
use ja_project::Coded;
use sat_plain::{Probe, Sat};
use std::alloc::Global;
use worker_pool::{Judgement, ask, judged_property};

/// Nobody raises the flag, so that the engine is not stopped.
fn ask_on<S: Probe, L: Sat>(
    alloc: Global,
    coded: &Coded,
    prop: u32,
    engine: &mut Engine<S, L>,
    meter: &mut Meter,
) -> Result<Judgement, Memory>
    requires within { prop < length coded.now.design.bads }
    requires engine { IsReadyFor S.count S.added coded.now engine.old }
    ensures engine { IsReadyFor S.count S.added coded.now engine.new }
    ensures judged { IfOk result (Settles coded.now prop meter.old.limit) }
    ensures falls { IfOk result (λ judged. (judged_property judged prop ≡ prop)
        ⊎ (unset engine.new.failed < unset engine.old.failed)) }
    ensures limit { meter.new.limit ≡ meter.old.limit }
{
    match ask::<S, L, NoFlag>(alloc, coded, prop, engine, meter, &mut NoFlag)? {
        Some(judged) => Ok(judged),
        None => unreachable!(),
    }
}

/// Asks for the property, and settles what is answered, which may be of another one. Tells of which. Under fail-fast a failure may
/// end the run.
pub(crate) fn turn<S: Probe, L: Sat>(
    alloc: Global,
    coded: &Coded,
    terms: Terms,
    prop: u32,
    engine: &mut Engine<S, L>,
    meter: &mut Meter,
    board: &mut SignBoard,
) -> Result<u32, Memory>
    requires within { prop < length coded.now.design.bads }
    requires engine { IsReadyFor S.count S.added coded.now engine.old }
    requires underway { IsUnderway coded.now terms board.old }
    requires halted { IsHalted coded.now board.old }
    requires limit { meter.old.limit ≡ terms.limit }
    ensures engine { IsReadyFor S.count S.added coded.now engine.new }
    ensures kept { OnOk result (Keeps board.old board.new) }
    ensures halted { OnOk result (IsHalted coded.now board.new) }
    ensures marked { IfOk result (IsMarked board.new) }
    ensures falls { IfOk result (λ p. (p ≡ prop)
        ⊎ (unset engine.new.failed < unset engine.old.failed)) }
    ensures limit { meter.new.limit ≡ meter.old.limit }
{
    let _task = coded.task();
    let judged = ask_on::<S, L>(alloc, coded, prop, engine, meter)?;
    let settled = judged_property(&judged, prop);
    board.settle(alloc, 0, settled, judged)?;
    halt(coded, terms, settled, board)?;
    Ok(settled)
}
