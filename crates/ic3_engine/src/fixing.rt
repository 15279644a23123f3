//! A fixed level: its clauses are inductive with what is known, and so hold for good.

ghost use Rattle.std.specs.Prelude.{◌≡◌, ◌-◌, ◌<◌, ◌≤◌, ◌++◌, ◌∷◌, [], if◌then◌else◌, length, IfOk, OnOk};
ghost use Rattle.ja_base.specs.Invariants.{Covers};
ghost use Rattle.aig_model.specs.Netlist.{circuit};
ghost use Rattle.aig_model.specs.Task.{problem};
ghost use Rattle.ic3_frames.specs.Levels.{IsLeastFixed, at_level};
ghost use Rattle.ic3_query.specs.Known.{all_of};
ghost use Rattle.ic3_query.specs.Questions.{IsGoodFrom};
ghost use Rattle.ic3_engine.specs.Raising.{IsRaised};
ghost use Rattle.ic3_engine.specs.Searching.{HasClosed, IsSearch};
ghost use Rattle.ic3_engine.specs.Turns.{state};

use crate::putting::put_known;
use crate::search::Search;
use ic3_frames::Frames;
use ic3_query::extend;
use ja_base::{Clause, ClauseList, Memory};
use ja_project::Coded;
use sat_plain::Sat;
use std::alloc::Global;

fn add_where(
    alloc: Global,
    clauses: &mut ClauseList,
    clause: &Clause,
    stands: bool,
) -> Result<(), Memory>
    ensures { OnOk result
        (clauses.new ≡ clauses.old ++ (if stands then clause.now ∷ [] else [])) }
{
    if stands {
        clauses.push(clause.copy(alloc)?)?;
    }
    Ok(())
}

/// The clauses that stand at the level.
fn standing(alloc: Global, frames: &Frames, level: u32) -> Result<ClauseList, Memory>
    ensures { IfOk result (λ clauses. clauses ≡ at_level frames.now.kept level) }
{
    let mut clauses = ClauseList::new(alloc);
    for at in 0..frames.len() {
        add_where(
            alloc,
            &mut clauses,
            frames.clause(at),
            frames.level(at) >= level,
        )?;
    }
    Ok(clauses)
}

/// The clauses of a fixed level become known. Where no row of the level below the top breaks the property, what is known covers
/// it then.
pub(crate) fn fix<S: Sat>(
    alloc: Global,
    coded: &Coded,
    prop: u32,
    z: &mut Search<S>,
    level: u32,
) -> Result<(), Memory>
    requires search { IsSearch coded.now (all_of z.old.known) z.old.frames
        (S.count z.old.solver) (S.added z.old.solver) }
    requires task { problem z.old.known.task ≡ problem coded.now }
    requires within { prop < length coded.now.design.bads }
    requires fixed { IsLeastFixed z.old.frames level }
    requires good { IsGoodFrom coded.now (all_of z.old.known) z.old.frames
        (z.old.frames.top - 1) prop }
    ensures raised { OnOk result (IsRaised coded.now z.old.frames.top
        (state z.old.known z.old.frames z.old.queue (S.count z.old.solver)
        (S.added z.old.solver))
        (state z.new.known z.new.frames z.new.queue (S.count z.new.solver)
        (S.added z.new.solver))) }
    ensures covers { OnOk result
        (Covers (circuit coded.now.design) (all_of z.new.known) prop) }
    ensures closed { HasClosed z.old.known z.new.known }
    ensures room { z.new.room ≡ z.old.room }
{
    let _own = z.known.own();
    let more = standing(alloc, &z.frames, level)?;
    extend(alloc, coded, &mut z.solver, &z.frames, &mut z.known, more)?;
    put_known(alloc, &mut z.frames, &z.known)?;
    Ok(())
}
