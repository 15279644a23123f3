//! Solver, levels and what is known change together. Where a call ends without an answer, solver and levels are to be made anew;
//! what is known is right all the same.

ghost use Rattle.std.specs.Prelude.{◌≡◌, ◌+◌, ◌<◌, ◌≤◌, [], ◌∷◌, ◌++◌, false, OnOk, OnErr, length};
ghost use Rattle.ja_base.specs.ClauseSets.{joined};
ghost use Rattle.ja_base.specs.Invariants.{IsInductive};
ghost use Rattle.aig_model.specs.Netlist.{circuit};
ghost use Rattle.aig_model.specs.Task.{problem};
ghost use Rattle.ja_project.specs.Latches.{is_foreign};
ghost use Rattle.ic3_frames.specs.Levels.{IfEntry, added, moved};
ghost use Rattle.ic3_query.specs.Known.{AreOwn, HoldsAtStart, IsForGood, all_of};
ghost use Rattle.ic3_query.specs.Serving.{IsMovable, Serves};

use crate::guard::guarded;
use crate::known::Known;
use crate::loading::add_all;
use ic3_frames::Frames;
use inv_cert::Closed;
use ja_base::{Clause, ClauseList, Memory};
use ja_project::Coded;
use sat_plain::Sat;
use std::alloc::Global;

/// Keeps a clause at a level.
pub fn keep<S: Sat>(
    alloc: Global,
    coded: &Coded,
    solver: &mut S,
    frames: &mut Frames,
    known: &Known,
    clause: Clause,
    level: u32,
) -> Result<(), Memory>
    requires low { 1 ≤ level }
    requires high { level ≤ frames.old.top }
    requires own { is_foreign (circuit coded.now.design) clause ≡ false }
    requires begins { HoldsAtStart (circuit coded.now.design) clause }
    requires serves { Serves coded.now.design (all_of known.now) frames.old
        (S.count solver.old) (S.added solver.old) }
    ensures kept { OnOk result (frames.new.kept ≡ added clause level frames.old.kept) }
    ensures top { frames.new.top ≡ frames.old.top }
    ensures serves { OnOk result (Serves coded.now.design (all_of known.now) frames.new
        (S.count solver.new) (S.added solver.new)) }
{
    let _task = coded.task();
    let _own = known.own();
    let guarded = guarded(alloc, coded, level, &clause)?;
    solver.add(alloc, &guarded)?;
    frames.add(clause, level)?;
    Ok(())
}

/// Moves the clause of this place up to the level.
pub fn push<S: Sat>(
    alloc: Global,
    coded: &Coded,
    solver: &mut S,
    frames: &mut Frames,
    known: &Known,
    at: u32,
    level: u32,
) -> Result<(), Memory>
    requires within { at < length frames.old.kept }
    requires low { 1 ≤ level }
    requires high { level ≤ frames.old.top }
    requires movable { IsMovable coded.now.design frames.old at level }
    requires serves { Serves coded.now.design (all_of known.now) frames.old
        (S.count solver.old) (S.added solver.old) }
    ensures kept { OnOk result
        (IfEntry frames.old.kept at (λ e. frames.new.kept ≡ moved frames.old.kept at e level)) }
    ensures top { frames.new.top ≡ frames.old.top }
    ensures serves { OnOk result (Serves coded.now.design (all_of known.now) frames.new
        (S.count solver.new) (S.added solver.new)) }
{
    let _task = coded.task();
    let _own = known.own();
    let guarded = guarded(alloc, coded, level, frames.clause(at))?;
    solver.add(alloc, &guarded)?;
    frames.push(at, level);
    Ok(())
}

/// The clauses of a closed list become known.
pub fn import<S: Sat>(
    alloc: Global,
    coded: &Coded,
    solver: &mut S,
    frames: &Frames,
    known: &mut Known,
    more: &Closed,
) -> Result<(), Memory>
    requires task { problem known.old.task ≡ problem coded.now }
    requires more { problem more.now.task ≡ problem coded.now }
    requires serves { Serves coded.now.design (all_of known.old) frames.now
        (S.count solver.old) (S.added solver.old) }
    ensures list { OnOk result (known.new.list ≡ joined known.old.list more.now.clauses) }
    ensures own { known.new.own ≡ known.old.own }
    ensures task { problem known.new.task ≡ problem known.old.task }
    ensures serves { OnOk result (Serves coded.now.design (all_of known.new) frames.now
        (S.count solver.new) (S.added solver.new)) }
{
    let _task = coded.task();
    let _top = frames.top();
    let _own = known.own();
    more.is_closed();
    let added = known.import(alloc, more)?;
    add_all(alloc, solver, added.as_slice())?;
    Ok(())
}

/// A clause that holds for good becomes known, and stands at the top too.
pub fn join<S: Sat>(
    alloc: Global,
    coded: &Coded,
    solver: &mut S,
    frames: &mut Frames,
    known: &mut Known,
    clause: Clause,
) -> Result<(), Memory>
    requires low { 1 ≤ frames.old.top }
    requires task { problem known.old.task ≡ problem coded.now }
    requires own { is_foreign (circuit coded.now.design) clause ≡ false }
    requires good { IsForGood (circuit coded.now.design) coded.now.expected
        (all_of known.old) clause }
    requires serves { Serves coded.now.design (all_of known.old) frames.old
        (S.count solver.old) (S.added solver.old) }
    ensures own { OnOk result (known.new.own ≡ known.old.own ++ clause ∷ []) }
    ensures list { known.new.list ≡ known.old.list }
    ensures task { known.new.task ≡ known.old.task }
    ensures kept { OnOk result
        (frames.new.kept ≡ added clause frames.old.top frames.old.kept) }
    ensures top { frames.new.top ≡ frames.old.top }
    ensures serves { OnOk result (Serves coded.now.design (all_of known.new) frames.new
        (S.count solver.new) (S.added solver.new)) }
{
    let _task = coded.task();
    known.join(clause.copy(alloc)?)?;
    solver.add(alloc, &clause)?;
    let top = frames.top();
    frames.add(clause, top)?;
    Ok(())
}

/// Clauses that are inductive with what is known become known.
pub fn extend<S: Sat>(
    alloc: Global,
    coded: &Coded,
    solver: &mut S,
    frames: &Frames,
    known: &mut Known,
    more: ClauseList,
) -> Result<(), Memory>
    requires task { problem known.old.task ≡ problem coded.now }
    requires own { AreOwn (circuit coded.now.design) more }
    requires inductive { IsInductive (circuit coded.now.design) coded.now.expected
        (all_of known.old ++ more) }
    requires serves { Serves coded.now.design (all_of known.old) frames.now
        (S.count solver.old) (S.added solver.old) }
    ensures own { OnOk result (known.new.own ≡ known.old.own ++ more) }
    ensures list { known.new.list ≡ known.old.list }
    ensures task { known.new.task ≡ known.old.task }
    ensures serves { OnOk result (Serves coded.now.design (all_of known.new) frames.now
        (S.count solver.new) (S.added solver.new)) }
{
    let _task = coded.task();
    let _top = frames.top();
    add_all(alloc, solver, more.as_slice())?;
    known.extend(more)?;
    Ok(())
}
