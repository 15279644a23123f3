//! A solver is made, and gets its switches.

ghost use Rattle.std.specs.Prelude.{◌≡◌, ◌+◌, ◌<◌, ◌≤◌, ◌^◌, [], true, length, IfOk, OnOk};
ghost use Rattle.ja_base.specs.Literals.{bit, value, variable};
ghost use Rattle.aig_model.specs.Netlist.{IsNew};
ghost use Rattle.aig_model.specs.Task.{problem};
ghost use Rattle.inv_cert.specs.Queries.{cover_clauses};
ghost use Rattle.ic3_query.specs.Known.{all_of};
ghost use Rattle.ic3_query.specs.Opening.{AreReset, IsReset, Says};
ghost use Rattle.ic3_query.specs.Serving.{Serves};
ghost use Rattle.ic3_query.specs.Switches.{switch_var};

use crate::guard::off;
use crate::known::Known;
use crate::loading::{add_all, add_closed};
use aig_model::{Latch, Reset};
use ic3_frames::Frames;
use ja_base::{Clause, Lit, Memory};
use ja_project::Coded;
use sat_plain::Sat;
use std::alloc::Global;

/// A solver with the design and what is known, over the variables of the design alone.
pub fn first_solver<S: Sat>(alloc: Global, coded: &Coded, known: &Known) -> Result<S, Memory>
    requires { problem known.now.task ≡ problem coded.now }
    ensures count { IfOk result (λ solver. S.count solver ≡ coded.now.design.vars + 1) }
    ensures added { IfOk result (λ solver. S.added solver
        ≡ cover_clauses coded.now (all_of known.now)) }
{
    let _task = coded.task();
    let mut solver = S::make(alloc, coded.vars())?;
    add_all(alloc, &mut solver, coded.clauses().as_slice())?;
    add_closed(alloc, coded, &mut solver, known.list())?;
    add_all(alloc, &mut solver, known.own().as_slice())?;
    Ok(solver)
}

/// Under the switch of level 0 the literal holds.
fn add_at_start<S: Sat>(
    alloc: Global,
    coded: &Coded,
    solver: &mut S,
    lit: Lit,
) -> Result<(), Memory>
    requires within { variable lit < coded.now.design.vars + 1 }
    requires wide { S.count solver.old ≡ coded.now.design.vars + 1 + 1 }
    requires small { S.count solver.old ≤ 2 ^ 31 }
    ensures count { S.count solver.new ≡ S.count solver.old }
    ensures added { OnOk result (Says (λ row. bit row (switch_var coded.now.design 0) ≡ true
        → value row lit ≡ true) (S.added solver.old) (S.added solver.new)) }
{
    let clause = Clause::from_lits(alloc, &[lit, off(coded, 0)])?;
    solver.add(alloc, &clause)?;
    Ok(())
}

fn add_reset<S: Sat>(
    alloc: Global,
    coded: &Coded,
    solver: &mut S,
    latch: Latch,
) -> Result<(), Memory>
    requires latch { IsNew coded.now.design.vars latch.lit }
    requires wide { S.count solver.old ≡ coded.now.design.vars + 1 + 1 }
    requires small { S.count solver.old ≤ 2 ^ 31 }
    ensures count { S.count solver.new ≡ S.count solver.old }
    ensures added { OnOk result
        (Says (IsReset coded.now.design latch) (S.added solver.old) (S.added solver.new)) }
{
    match latch.reset {
        Reset::Free => Ok(()),
        Reset::Zero => add_at_start(alloc, coded, solver, latch.lit.not()),
        Reset::One => add_at_start(alloc, coded, solver, latch.lit),
    }
}

fn add_resets<S: Sat>(alloc: Global, coded: &Coded, solver: &mut S) -> Result<(), Memory>
    requires wide { S.count solver.old ≡ coded.now.design.vars + 1 + 1 }
    requires small { S.count solver.old ≤ 2 ^ 31 }
    ensures count { S.count solver.new ≡ S.count solver.old }
    ensures added { OnOk result
        (Says (AreReset coded.now.design (length coded.now.design.latches))
        (S.added solver.old) (S.added solver.new)) }
{
    let design = coded.task().design();
    for at in 0..design.latches() {
        add_reset(alloc, coded, solver, design.latch(at))?;
    }
    Ok(())
}

/// Level 0 is opened: its switch comes, and under it the resets.
pub fn open<S: Sat>(
    alloc: Global,
    coded: &Coded,
    solver: &mut S,
    known: &Known,
) -> Result<(), Memory>
    requires task { problem known.now.task ≡ problem coded.now }
    requires count { S.count solver.old ≡ coded.now.design.vars + 1 }
    requires added { S.added solver.old ≡ cover_clauses coded.now (all_of known.now) }
    ensures { OnOk result (Serves coded.now.design (all_of known.now)
        (record { top = 0; kept = [] }) (S.count solver.new) (S.added solver.new)) }
{
    let _own = known.own();
    solver.fresh()?;
    add_resets(alloc, coded, solver)?;
    Ok(())
}

/// One more level, with its switch.
pub fn grow<S: Sat>(
    coded: &Coded,
    solver: &mut S,
    frames: &mut Frames,
    known: &Known,
) -> Result<(), Memory>
    requires { Serves coded.now.design (all_of known.now) frames.old (S.count solver.old)
        (S.added solver.old) }
    ensures frames { OnOk result
        (frames.new ≡ record { top = frames.old.top + 1; kept = frames.old.kept }) }
    ensures serves { OnOk result (Serves coded.now.design (all_of known.now) frames.new
        (S.count solver.new) (S.added solver.new)) }
{
    let _task = coded.task();
    let _own = known.own();
    solver.fresh()?;
    frames.grow()?;
    Ok(())
}
