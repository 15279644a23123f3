//! A blocked cube is settled: its clause is kept, for good or at its level.

ghost use Rattle.std.specs.Prelude.{◌≡◌, ◌-◌, ◌≤◌, true, false, OnOk};
ghost use Rattle.aig_model.specs.Netlist.{circuit};
ghost use Rattle.aig_model.specs.Task.{problem};
ghost use Rattle.ja_project.specs.Latches.{is_foreign};
ghost use Rattle.ja_project.specs.Start.{starts};
ghost use Rattle.ic3_frames.specs.Levels.{is_blocked};
ghost use Rattle.ic3_query.specs.Known.{IsForGood, all_of};
ghost use Rattle.ic3_query.specs.Questions.{IsKeptAt};
ghost use Rattle.ic3_engine.specs.Searching.{HasClosed, IsSearch, IsStep};

use ic3_frames::Frames;
use ic3_query::{Known, join, keep};
use ja_base::{Clause, Memory};
use ja_project::Coded;
use sat_plain::Sat;
use std::alloc::Global;

/// The clause holds for good: it is known from now on, and stands at the top.
pub(crate) fn settle_good<S: Sat>(
    alloc: Global,
    coded: &Coded,
    solver: &mut S,
    frames: &mut Frames,
    known: &mut Known,
    clause: Clause,
) -> Result<(), Memory>
    requires search { IsSearch coded.now (all_of known.old) frames.old
        (S.count solver.old) (S.added solver.old) }
    requires task { problem known.old.task ≡ problem coded.now }
    requires own { is_foreign (circuit coded.now.design) clause ≡ false }
    requires good { IsForGood (circuit coded.now.design) coded.now.expected
        (all_of known.old) clause }
    requires free { is_blocked frames.old.kept frames.old.top clause ≡ false }
    ensures step { OnOk result (IsStep coded.now (all_of known.new) frames.old frames.new
        (S.count solver.new) (S.added solver.new)) }
    ensures closed { HasClosed known.old known.new }
{
    let _task = coded.task();
    join(alloc, coded, solver, frames, known, clause)?;
    Ok(())
}

/// The clause is kept at the level.
pub(crate) fn settle<S: Sat>(
    alloc: Global,
    coded: &Coded,
    solver: &mut S,
    frames: &mut Frames,
    known: &Known,
    clause: Clause,
    level: u32,
) -> Result<(), Memory>
    requires low { 1 ≤ level }
    requires high { level ≤ frames.old.top }
    requires search { IsSearch coded.now (all_of known.now) frames.old
        (S.count solver.old) (S.added solver.old) }
    requires own { is_foreign (circuit coded.now.design) clause ≡ false }
    requires begins { starts (circuit coded.now.design) clause ≡ true }
    requires kept { IsKeptAt coded.now (all_of known.now) frames.old (level - 1) clause }
    requires free { is_blocked frames.old.kept level clause ≡ false }
    ensures top { frames.new.top ≡ frames.old.top }
    ensures step { OnOk result (IsStep coded.now (all_of known.now) frames.old frames.new
        (S.count solver.new) (S.added solver.new)) }
{
    let _task = coded.task();
    keep(alloc, coded, solver, frames, known, clause, level)?;
    Ok(())
}
