//! Known clauses stand at the top too, so that one test tells what is blocked.

ghost use Rattle.std.specs.Prelude.{◌≡◌, ◌≤◌, OnOk};
ghost use Rattle.ic3_query.specs.Known.{IsKnown, all_of};
ghost use Rattle.aig_model.specs.Task.{problem};
ghost use Rattle.ic3_engine.specs.Putting.{put_all, put_at};

use ic3_frames::Frames;
use ic3_query::Known;
use inv_cert::Closed;
use ja_base::{Clause, ClauseList, ClosedSet, Memory};
use std::alloc::Global;

/// The clause is blocked at the top from now on.
pub(crate) fn put(alloc: Global, frames: &mut Frames, clause: &Clause) -> Result<(), Memory>
    requires { 1 ≤ frames.old.top }
    ensures top { frames.new.top ≡ frames.old.top }
    ensures kept { OnOk result
        (frames.new.kept ≡ put_at frames.old.top clause.now frames.old.kept) }
{
    let top = frames.top();
    if frames.blocks(top, clause) {
        return Ok(());
    }
    frames.add(clause.copy(alloc)?, top)?;
    Ok(())
}

fn put_list(alloc: Global, frames: &mut Frames, clauses: &ClauseList) -> Result<(), Memory>
    requires { 1 ≤ frames.old.top }
    ensures top { frames.new.top ≡ frames.old.top }
    ensures kept { OnOk result
        (frames.new.kept ≡ put_all frames.old.top clauses.now frames.old.kept) }
{
    for clause in clauses.as_slice() {
        put(alloc, frames, clause)?;
    }
    Ok(())
}

fn put_closed(alloc: Global, frames: &mut Frames, list: &Closed) -> Result<(), Memory>
    requires { 1 ≤ frames.old.top }
    ensures top { frames.new.top ≡ frames.old.top }
    ensures kept { OnOk result
        (frames.new.kept ≡ put_all frames.old.top list.now.clauses frames.old.kept) }
{
    for at in 0..list.len() {
        put(alloc, frames, list.clause(at))?;
    }
    Ok(())
}

/// Each known clause is blocked at the top from now on.
pub(crate) fn put_known(alloc: Global, frames: &mut Frames, known: &Known) -> Result<(), Memory>
    requires { 1 ≤ frames.old.top }
    ensures top { frames.new.top ≡ frames.old.top }
    ensures kept { OnOk result
        (frames.new.kept ≡ put_all frames.old.top (all_of known.now) frames.old.kept) }
    ensures known { IsKnown (problem known.now.task) (all_of known.now) }
{
    put_closed(alloc, frames, known.list())?;
    put_list(alloc, frames, known.own())?;
    Ok(())
}
