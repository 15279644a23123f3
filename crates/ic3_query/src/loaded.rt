//! A checker and a solver with the same clauses in one order.

ghost use Rattle.std.specs.Prelude.{◌≡◌, ◌+◌, [], ◌∷◌, ◌++◌, length, take, All, IfOk, IfSome, OnOk};
ghost use Rattle.std.specs.Bool.{OnTrue};
ghost use Rattle.ja_base.specs.Clauses.{IsBelow};
ghost use Rattle.aig_model.specs.Task.{problem};
ghost use Rattle.ic3_query.specs.Pairs.{IsPair};

use crate::loading::{add_all, add_units};
use inv_cert::{Closed, StepChecker};
use ja_base::{Clause, ClauseList, ClosedSet, Memory};
use ja_project::Coded;
use sat_plain::Sat;
use std::alloc::Global;

/// Both hold the clauses of the design, the assumptions, and a list.
#[derive(Drop)]
pub(crate) struct Loaded<L: Sat> {
    pub(crate) checker: StepChecker,
    pub(crate) solver: L,
}

/// With no list yet.
fn make<L: Sat>(alloc: Global, coded: &Coded) -> Result<Loaded<L>, Memory>
    ensures pair { IfOk result
        (λ pair. IsPair pair.checker (L.count pair.solver) (L.added pair.solver)) }
    ensures empty { IfOk result (λ pair. pair.checker ≡ record { task = coded.now; list = [] }) }
{
    let checker = StepChecker::new(alloc, coded)?;
    let mut solver = L::make(alloc, coded.vars())?;
    add_all(alloc, &mut solver, coded.clauses().as_slice())?;
    add_units(alloc, &mut solver, coded.held())?;
    Ok(Loaded { checker, solver })
}

/// The clause comes to both.
fn add<L: Sat>(alloc: Global, pair: &mut Loaded<L>, clause: &Clause) -> Result<(), Memory>
    requires below { IsBelow (pair.old.checker.task.design.vars + 1) clause.now }
    requires pair { IsPair pair.old.checker (L.count pair.old.solver) (L.added pair.old.solver) }
    ensures pair { OnOk result
        (IsPair pair.new.checker (L.count pair.new.solver) (L.added pair.new.solver)) }
    ensures list { OnOk result (pair.new.checker ≡ record {
      task = pair.old.checker.task;
      list = pair.old.checker.list ++ clause.now ∷ [];
    }) }
{
    pair.checker.add(alloc, clause)?;
    pair.solver.add(alloc, clause)?;
    Ok(())
}

/// The clauses come to both.
pub(crate) fn add_each<L: Sat>(
    alloc: Global,
    pair: &mut Loaded<L>,
    clauses: &[Clause],
) -> Result<(), Memory>
    requires below { All (IsBelow (pair.old.checker.task.design.vars + 1)) clauses.now }
    requires pair { IsPair pair.old.checker (L.count pair.old.solver) (L.added pair.old.solver) }
    ensures pair { OnOk result
        (IsPair pair.new.checker (L.count pair.new.solver) (L.added pair.new.solver)) }
    ensures list { OnOk result (pair.new.checker ≡ record {
      task = pair.old.checker.task;
      list = pair.old.checker.list ++ clauses.now;
    }) }
{
    for clause in clauses {
        add(alloc, pair, clause)?;
    }
    Ok(())
}

/// Whether the list begins with these clauses.
fn begins_with(list: &Closed, held: &ClauseList) -> bool
    ensures { OnTrue result (take (length held.now) list.now.clauses ≡ held.now) }
{
    if held.len() > list.len() {
        return false;
    }
    for at in 0..held.len() {
        if held.get(at).lits() != list.clause(at).lits() {
            return false;
        }
    }
    true
}

/// What is loaded, where the list begins with it; or else what has no list yet.
fn begun<L: Sat>(
    alloc: Global,
    coded: &Coded,
    loaded: Option<Loaded<L>>,
    list: &Closed,
) -> Result<Loaded<L>, Memory>
    requires task { IfSome loaded (λ pair. pair.checker.task ≡ coded.now) }
    requires pair { IfSome loaded
        (λ pair. IsPair pair.checker (L.count pair.solver) (L.added pair.solver)) }
    ensures task { IfOk result (λ pair. pair.checker.task ≡ coded.now) }
    ensures pair { IfOk result
        (λ pair. IsPair pair.checker (L.count pair.solver) (L.added pair.solver)) }
    ensures begins { IfOk result (λ pair. take (length pair.checker.list) list.now.clauses
        ≡ pair.checker.list) }
{
    if let Some(pair) = loaded {
        if begins_with(list, pair.checker.list()) {
            return Ok(pair);
        }
    }
    make(alloc, coded)
}

/// The clauses of the list that lie behind those which are loaded come to both.
fn add_others<L: Sat>(
    alloc: Global,
    coded: &Coded,
    pair: &mut Loaded<L>,
    list: &Closed,
) -> Result<(), Memory>
    requires task { problem list.now.task ≡ problem coded.now }
    requires checker { pair.old.checker.task ≡ coded.now }
    requires pair { IsPair pair.old.checker (L.count pair.old.solver) (L.added pair.old.solver) }
    requires begins { take (length pair.old.checker.list) list.now.clauses
        ≡ pair.old.checker.list }
    ensures pair { OnOk result
        (IsPair pair.new.checker (L.count pair.new.solver) (L.added pair.new.solver)) }
    ensures list { OnOk result
        (pair.new.checker ≡ record { task = coded.now; list = list.now.clauses }) }
{
    let _task = coded.task();
    list.is_closed();
    for at in pair.checker.list().len()..list.len() {
        add(alloc, pair, list.clause(at))?;
    }
    Ok(())
}

/// A checker and a solver that hold the list: those that are loaded, if the list begins with what they hold.
pub(crate) fn load<L: Sat>(
    alloc: Global,
    coded: &Coded,
    loaded: Option<Loaded<L>>,
    list: &Closed,
) -> Result<Loaded<L>, Memory>
    requires list { problem list.now.task ≡ problem coded.now }
    requires task { IfSome loaded (λ pair. pair.checker.task ≡ coded.now) }
    requires pair { IfSome loaded
        (λ pair. IsPair pair.checker (L.count pair.solver) (L.added pair.solver)) }
    ensures pair { IfOk result
        (λ pair. IsPair pair.checker (L.count pair.solver) (L.added pair.solver)) }
    ensures list { IfOk result
        (λ pair. pair.checker ≡ record { task = coded.now; list = list.now.clauses }) }
{
    let mut pair = begun(alloc, coded, loaded, list)?;
    add_others(alloc, coded, &mut pair, list)?;
    Ok(pair)
}
