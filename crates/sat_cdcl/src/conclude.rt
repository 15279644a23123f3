//! What refutes the literals that are assumed.

ghost use Rattle.std.specs.Prelude.{◌≡◌, ℕ, ◌+◌, ◌*◌, ◌<◌, ◌≤◌, List, None, length, take, Contains, slice_get, Some, IfOk, OnOk};
ghost use Rattle.ja_base.specs.Literals.{negated};
ghost use Rattle.refute_check.specs.Lines.{refusal};
ghost use Rattle.sat_plain.specs.Trails.{lits_of};
ghost use Rattle.sat_plain.specs.Derive.{IsDerived, IsWalked};
ghost use Rattle.sat_watch.specs.Steps.{IsConflict};
ghost use Rattle.sat_cdcl.specs.Files.{list_of, places_of};
ghost use Rattle.sat_cdcl.specs.Walks.{GoesOn, HasReason};
ghost use Rattle.sat_cdcl.specs.Assumptions.{DecidesUnder, AreNegatedIn};

use crate::analyze::{begin, resolve};
use crate::database::Database;
use ja_base::Memory;
use refute_check::Line;
use sat_plain::Derivation;
use std::alloc::Global;

/// Goes on below a place: what was decided is kept, and all else is resolved.
fn step(derivation: &mut Derivation, db: &Database, at: u32) -> Result<(), Memory>
    requires at { at < length (places_of db.now) }
    requires width { length derivation.old.marks ≡ 2 * db.now.watched.trail.vars }
    ensures goes { OnOk result (GoesOn db.now.watched.trail.vars (list_of db.now)
        (places_of db.now) at derivation.old derivation.new) }
    ensures kept { OnOk result ((under : List ℕ) → DecidesUnder under (places_of db.now) (at + 1)
        → AreNegatedIn under derivation.old.lits → AreNegatedIn under derivation.new.lits) }
    ensures width { length derivation.new.marks ≡ length derivation.old.marks }
{
    let place = db.place(at);
    if derivation.skips(place.lit) {
        return Ok(());
    }
    match place.reason {
        Some(slot) => {
            resolve(derivation, db, at, slot)?;
            Ok(())
        }
        None => {
            derivation.keep(place.lit)?;
            Ok(())
        }
    }
}

/// Walks down from a place to the end.
fn conclude(
    alloc: Global,
    db: &Database,
    mut derivation: Derivation,
    from: u32,
) -> Result<Line, Memory>
    requires from { from ≤ length (places_of db.now) }
    requires width { length derivation.marks ≡ 2 * db.now.watched.trail.vars }
    ensures accepted { IfOk result (λ line. (trail : List ℕ)
        → take from trail ≡ take from (lits_of (places_of db.now))
        → IsWalked db.now.watched.trail.vars trail
        → IsDerived db.now.watched.trail.vars (list_of db.now) trail from derivation
        → refusal db.now.watched.trail.vars (list_of db.now) line.clause line.hints ≡ None) }
    ensures kept { IfOk result (λ line. (under : List ℕ)
        → DecidesUnder under (places_of db.now) from
        → AreNegatedIn under derivation.lits → AreNegatedIn under line.clause) }
{
    for at in (0..from).rev() {
        step(&mut derivation, db, at)?;
    }
    let line = derivation.finish(alloc)?;
    Ok(line)
}

/// What refutes the literals that were decided, since the clause of this slot is false.
pub(crate) fn refute_conflict(alloc: Global, db: &Database, conflict: u32) -> Result<Line, Memory>
    requires conflict { IsConflict db.now.watched conflict }
    ensures accepted { IfOk result (λ line. refusal db.now.watched.trail.vars
        (list_of db.now) line.clause line.hints ≡ None) }
    ensures kept { IfOk result (λ line. (under : List ℕ)
        → DecidesUnder under (places_of db.now) (length (places_of db.now))
        → AreNegatedIn under line.clause) }
{
    let derivation = begin(alloc, db, conflict)?;
    let line = conclude(alloc, db, derivation, db.trail().len())?;
    Ok(line)
}

/// What refutes the negation of the literal of a place with those that were decided before, since its reason would be false.
pub(crate) fn refute_place(alloc: Global, db: &Database, at: u32, slot: u32) -> Result<Line, Memory>
    requires at { at < length (places_of db.now) }
    requires reason { HasReason (places_of db.now) at slot }
    ensures accepted { IfOk result (λ line. refusal db.now.watched.trail.vars
        (list_of db.now) line.clause line.hints ≡ None) }
    ensures kept { IfOk result (λ line. (under : List ℕ) (l : ℕ)
        → slice_get (lits_of (places_of db.now)) at ≡ Some l → Contains under (negated l)
        → DecidesUnder under (places_of db.now) at → AreNegatedIn under line.clause) }
{
    let lit = db.place(at).lit;
    let clause = db.clause(slot);
    let number = db.number(slot);
    let mut derivation = Derivation::begin(alloc, db.vars(), number, clause)?;
    derivation.keep(lit.not())?;
    let line = conclude(alloc, db, derivation, at)?;
    Ok(line)
}
