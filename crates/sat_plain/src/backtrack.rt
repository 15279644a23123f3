//! What is done with a conflict.

ghost use Rattle.std.specs.Prelude.{◌≡◌, ℕ, ◌+◌, ◌<◌, ◌≤◌, [], ◌∷◌, ◌++◌, Some, map, length, take, slice_get, All, IfOk, OnOk, OnErr};
ghost use Rattle.ja_base.specs.Literals.{negated};
ghost use Rattle.sat_plain.specs.Trails.{AreForced, IsGrown, lits_of};
ghost use Rattle.sat_plain.specs.Steps.{IsConflict};
ghost use Rattle.sat_plain.specs.Walks.{IsCut, IsChoice};
ghost use Rattle.sat_plain.specs.Turns.{IsUnderWay, Continues, IsLearnt};

use crate::analyze::{Learnt, derive};
use crate::query::Query;
use crate::trail::Trail;
use ja_base::{Lit, Lits, Memory};
use refute_check::{Line, Lines, Numbered};
use std::alloc::Global;

/// The line joins the log, and its clause the list.
fn log(alloc: Global, clauses: &mut Numbered, lines: &mut Lines, line: Line) -> Result<(), Memory>
    ensures ok { OnOk result ((clauses.new.list ≡ clauses.old.list ++ line.clause ∷ [])
        × (lines.new ≡ lines.old ++ line ∷ [])) }
    ensures err { OnErr result ((clauses.new.list ≡ clauses.old.list) × (lines.new ≡ lines.old)) }
    ensures added { clauses.new.added ≡ clauses.old.added }
    ensures kept { clauses.new.kept ≡ clauses.old.kept }
{
    let clause = line.clause.copy(alloc)?;
    clauses.reserve(1)?;
    lines.push(line)?;
    clauses.put(clause);
    Ok(())
}

/// The negations of these literals.
pub fn negations(alloc: Global, lits: &[Lit]) -> Result<Lits, Memory>
    ensures { IfOk result (λ core. core ≡ map negated lits.now) }
{
    let mut core = Lits::new(alloc);
    for lit in lits {
        core.push(lit.not())?;
    }
    Ok(core)
}

/// The place of the last decision, if it is none of those that are assumed.
fn choice(last: Option<u32>, assumed: u32) -> Option<u32>
    ensures { IsChoice last assumed result }
{
    match last {
        Some(at) if at >= assumed => Some(at),
        _ => None,
    }
}

/// Drops the places from a decision on, and makes the negation of its literal true by the clause of this number.
fn flip(trail: &mut Trail, at: u32, number: u32)
    requires at { at < length trail.old.places }
    ensures vars { trail.new.vars ≡ trail.old.vars }
    ensures short { length trail.old.places ≤ trail.old.vars }
    ensures places { (lit : ℕ) → slice_get (lits_of trail.old.places) at ≡ Some lit
        → trail.new.places ≡ take at trail.old.places
        ++ record { lit = negated lit; reason = Some number } ∷ [] }
{
    let lit = trail.place(at).lit;
    trail.undo(at);
    trail.push(lit.not(), Some(number));
}

/// Learns a line from a conflict. Then the last decision gives way to its negation; or the literals that are assumed are
/// refuted, and those of them that are needed are the answer.
pub(crate) fn learn(
    alloc: Global,
    clauses: &mut Numbered,
    query: &mut Query,
    conflict: u32,
) -> Result<Option<Lits>, Memory>
    requires search { IsUnderWay query.old clauses.old }
    requires conflict { IsConflict clauses.old.list (lits_of query.old.trail.places) conflict }
    ensures vars { query.new.trail.vars ≡ query.old.trail.vars }
    ensures assumed { query.new.assumed ≡ query.old.assumed }
    ensures next { Continues query.old clauses.old query.new clauses.new }
    ensures answer { IsLearnt query.old.trail.vars query.old.assumed query.old.trail.places
        query.old.lines query.new.trail.places query.new.lines clauses.new.list result }
{
    let Learnt { line, last } = derive(alloc, &query.trail, clauses, conflict)?;
    let number = clauses.len();
    log(alloc, clauses, &mut query.lines, line)?;
    match choice(last, query.assumed) {
        Some(at) => {
            flip(&mut query.trail, at, number);
            Ok(None)
        }
        None => {
            let core = negations(alloc, clauses.clause(number).lits())?;
            Ok(Some(core))
        }
    }
}
