//! A search is made: one level above the first, at which what is known stands.

ghost use Rattle.std.specs.Prelude.{◌≡◌, ◌+◌, [], IfOk, OnOk};
ghost use Rattle.aig_model.specs.Task.{problem};
ghost use Rattle.inv_cert.specs.Queries.{cover_clauses};
ghost use Rattle.ic3_query.specs.Known.{all_of};
ghost use Rattle.ic3_query.specs.Questions.{IsRoom};
ghost use Rattle.ic3_engine.specs.Climbing.{IsEngine};
ghost use Rattle.ic3_engine.specs.Turns.{state};

use crate::putting::put_known;
use crate::search::Search;
use ic3_frames::Frames;
use ic3_oblig::Queue;
use ic3_query::{Known, Room, first_solver, grow, open};
use ja_base::Memory;
use ja_project::Coded;
use sat_plain::Sat;
use std::alloc::Global;

/// The first two levels over a solver that has the design and what is known.
fn first_levels<S: Sat>(
    alloc: Global,
    coded: &Coded,
    solver: &mut S,
    known: &Known,
) -> Result<Frames, Memory>
    requires task { problem known.now.task ≡ problem coded.now }
    requires count { S.count solver.old ≡ coded.now.design.vars + 1 }
    requires added { S.added solver.old ≡ cover_clauses coded.now (all_of known.now) }
    ensures engine { IfOk result (λ frames. IsEngine coded.now
        (state known.now frames [] (S.count solver.new) (S.added solver.new))) }
{
    let mut frames = Frames::new(alloc);
    open(alloc, coded, solver, known)?;
    grow(coded, solver, &mut frames, known)?;
    put_known(alloc, &mut frames, known)?;
    Ok(frames)
}

/// A search over a solver that has the design and what is known.
pub(crate) fn start_from<S: Sat>(
    alloc: Global,
    coded: &Coded,
    solver: S,
    known: Known,
) -> Result<Search<S>, Memory>
    requires task { problem known.task ≡ problem coded.now }
    requires count { S.count solver ≡ coded.now.design.vars + 1 }
    requires added { S.added solver ≡ cover_clauses coded.now (all_of known) }
    ensures engine { IfOk result (λ z. IsEngine coded.now
        (state z.known z.frames z.queue (S.count z.solver) (S.added z.solver))) }
    ensures room { IfOk result (λ z. IsRoom coded.now.design z.room.row z.room.vals) }
    ensures known { IfOk result (λ z. z.known ≡ known) }
    ensures empty { IfOk result (λ z. z.queue ≡ []) }
{
    let mut solver = solver;
    let frames = first_levels(alloc, coded, &mut solver, &known)?;
    let room = Room::new(alloc, coded)?;
    Ok(Search {
        solver,
        frames,
        known,
        queue: Queue::new(alloc),
        room,
    })
}

/// Solver and levels are made anew from what is known.
pub(crate) fn start_again<S: Sat>(
    alloc: Global,
    coded: &Coded,
    z: &mut Search<S>,
) -> Result<(), Memory>
    requires task { problem z.old.known.task ≡ problem coded.now }
    requires room { IsRoom coded.now.design z.old.room.row z.old.room.vals }
    ensures engine { OnOk result (IsEngine coded.now (state z.new.known z.new.frames
        z.new.queue (S.count z.new.solver) (S.added z.new.solver))) }
    ensures known { z.new.known ≡ z.old.known }
    ensures room { IsRoom coded.now.design z.new.room.row z.new.room.vals }
{
    let mut solver: S = first_solver(alloc, coded, &z.known)?;
    let frames = first_levels(alloc, coded, &mut solver, &z.known)?;
    z.solver = solver;
    z.frames = frames;
    z.queue = Queue::new(alloc);
    Ok(())
}
