//! All clauses, looked at again and again: what propagation falls back on where lists have no room.

ghost use Rattle.std.specs.Prelude.{◌≡◌, ◌≢◌, ℕ, ◌<◌, List, All, length, IfSome, IfNone};
ghost use Rattle.std.specs.Bool.{OnTrue, OnFalse};
ghost use Rattle.ja_base.specs.Clauses.{IsBelow};
ghost use Rattle.refute_check.specs.declared.found.Found.TheVariants.{False};
ghost use Rattle.sat_plain.specs.Trails.{IsAssigned, lits_of};
ghost use Rattle.sat_watch.specs.Stores.{IsHeld, IsThere, over};
ghost use Rattle.sat_watch.specs.Steps.{IsForcedOn, IsConflict, IsStep, IsVisited};
ghost use Rattle.sat_watch.specs.Fronts.{IsFine, IsStillUnder};

use crate::step::Step;
use crate::store::Store;
use ja_base::Lit;
use refute_check::{Found, scan};
use sat_plain::Trail;

/// Makes the literal true that the clause of this slot forces, if it is there and forces one.
fn scan_slot(trail: &mut Trail, store: &Store, at: u32) -> Found
    requires at { at < length store.now.clauses }
    requires below { All (IsBelow trail.old.vars) store.now.clauses }
    requires held { IsHeld (over trail.old store.now) }
    ensures vars { trail.new.vars ≡ trail.old.vars }
    ensures step { IsVisited trail.old (over trail.new store.now) at result }
    ensures grown { IsForcedOn trail.old.places trail.new.places }
    ensures held { IsHeld (over trail.new store.now) }
    ensures is { IsAssigned trail.new }
    ensures still { (clause : List ℕ) → IsThere store.now at clause → result ≢ False
        → IsStillUnder (lits_of trail.new.places) clause }
{
    let values = trail.values();
    if !store.is_live(at) {
        return Found::Other;
    }
    match scan(values, store.clause(at).lits()) {
        Found::Forces(lit) => {
            trail.push(Lit(lit), Some(at));
            Found::Forces(lit)
        }
        Found::False => Found::False,
        Found::Other => Found::Other,
    }
}

/// Whether the clause of this slot, if one is there, is false. What it forces becomes true.
fn examine(trail: &mut Trail, store: &Store, at: u32) -> bool
    requires is { IsAssigned trail.old }
    requires below { All (IsBelow trail.old.vars) store.now.clauses }
    requires held { IsHeld (over trail.old store.now) }
    ensures vars { trail.new.vars ≡ trail.old.vars }
    ensures grown { IsForcedOn trail.old.places trail.new.places }
    ensures held { IsHeld (over trail.new store.now) }
    ensures is { IsAssigned trail.new }
    ensures conflict { OnTrue result (IsConflict (over trail.new store.now) at) }
    ensures still { OnFalse result ((clause : List ℕ) → IsThere store.now at clause
        → IsStillUnder (lits_of trail.new.places) clause) }
{
    if at >= store.len() {
        return false;
    }
    match scan_slot(trail, store, at) {
        Found::False => true,
        Found::Forces(_) => false,
        Found::Other => false,
    }
}

/// Looks at all clauses, up to one that is false.
fn sweep_all(trail: &mut Trail, store: &Store) -> Option<u32>
    requires is { IsAssigned trail.old }
    requires below { All (IsBelow trail.old.vars) store.now.clauses }
    requires held { IsHeld (over trail.old store.now) }
    ensures vars { trail.new.vars ≡ trail.old.vars }
    ensures grown { IsForcedOn trail.old.places trail.new.places }
    ensures held { IsHeld (over trail.new store.now) }
    ensures is { IsAssigned trail.new }
    ensures conflict { IfSome result (IsConflict (over trail.new store.now)) }
    ensures fine { IfNone result ((k : ℕ) (clause : List ℕ) → IsThere store.now k clause
        → IsFine (lits_of trail.new.places) (length trail.old.places) clause) }
{
    for slot in 0..store.len() {
        if examine(trail, store, slot) {
            return Some(slot);
        }
    }
    None
}

/// Looks at all clauses until nothing more becomes true, or one is false.
pub(crate) fn saturate(trail: &mut Trail, store: &Store) -> Step
    requires below { All (IsBelow trail.old.vars) store.now.clauses }
    requires held { IsHeld (over trail.old store.now) }
    ensures vars { trail.new.vars ≡ trail.old.vars }
    ensures grown { IsForcedOn trail.old.places trail.new.places }
    ensures held { IsHeld (over trail.new store.now) }
    ensures is { IsAssigned trail.new }
    ensures step { IsStep (over trail.new store.now) result }
{
    loop {
        let len = trail.len();
        if let Some(at) = sweep_all(trail, store) {
            return Step::Conflict(at);
        }
        if trail.len() == len {
            return Step::Quiet;
        }
    }
}
