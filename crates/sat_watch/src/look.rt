//! A clause that is looked at whole.

ghost use Rattle.std.specs.Prelude.{◌≡◌, ◌≢◌, ℕ, ◌*◌, ◌<◌, ◌≤◌, Bool, true, false, List, All, Contains, length, slice_get, Some, IfSome, IfNone};
ghost use Rattle.std.specs.Bool.{OnTrue, OnFalse};
ghost use Rattle.ja_base.specs.Literals.{bit, negated};
ghost use Rattle.ja_base.specs.Clauses.{IsBelow};
ghost use Rattle.sat_plain.specs.Trails.{IsAssigned, lits_of};
ghost use Rattle.sat_watch.specs.Stores.{IsHeld, IsThere, over};
ghost use Rattle.sat_watch.specs.Steps.{IsForcedOn, IsConflict};
ghost use Rattle.sat_watch.specs.Watching.{ArePaired, IsPaired, Keeps};
ghost use Rattle.sat_watch.specs.Visits.{IsBased, IsLookedAt, IsOpenPair, IsTrueUnder};

use crate::pair::Pair;
use crate::store::Store;
use crate::visit::{Visit, force, is_on, visit_slot};
use crate::watches::Watches;
use ja_base::Lit;
use sat_plain::Trail;

/// A literal that watches the clause of this slot and is false, if one of the two is.
fn false_watch(values: &[bool], watches: &Watches, slot: u32) -> Option<Lit>
    requires { slot < length watches.now.pairs }
    ensures some { IfSome result (λ lit. bit values.now (negated lit) ≡ true) }
    ensures none { IfNone result (IsOpenPair values.now watches.now slot) }
{
    let Pair { one, two } = watches.pair(slot);
    if is_on(values, one.not()) {
        return Some(one);
    }
    if is_on(values, two.not()) {
        Some(two)
    } else {
        None
    }
}

/// Visits the clause of this slot by a literal that is false.
fn visit_by(trail: &mut Trail, store: &Store, watches: &mut Watches, slot: u32, lit: Lit) -> Visit
    requires is { IsAssigned trail.old }
    requires below { All (IsBelow trail.old.vars) store.now.clauses }
    requires held { IsHeld (over trail.old store.now) }
    requires wide { 2 * trail.old.vars ≤ length watches.old.lists }
    requires long { length store.now.clauses ≤ length watches.old.pairs }
    requires wrong { bit trail.old.values (negated lit) ≡ true }
    requires based { IsBased store.now (lits_of trail.old.places) watches.old slot }
    ensures vars { trail.new.vars ≡ trail.old.vars }
    ensures grown { IsForcedOn trail.old.places trail.new.places }
    ensures held { IsHeld (over trail.new store.now) }
    ensures is { IsAssigned trail.new }
    ensures keeps { Keeps store.now (lits_of trail.old.places) watches.old watches.new }
    ensures looked { IsLookedAt store.now trail.new watches.new slot result }
{
    match watches.place_of(lit, slot) {
        Some(at) => visit_slot(trail, store, watches, lit, at, slot),
        None => Visit::Unsettled,
    }
}

/// Two literals that are not false come to watch the clause of this slot, or one is true, or else becomes so.
fn look_at_long(trail: &mut Trail, store: &Store, watches: &mut Watches, slot: u32) -> Visit
    requires slot { slot < length store.now.clauses }
    requires is { IsAssigned trail.old }
    requires below { All (IsBelow trail.old.vars) store.now.clauses }
    requires held { IsHeld (over trail.old store.now) }
    requires wide { 2 * trail.old.vars ≤ length watches.old.lists }
    requires long { length store.now.clauses ≤ length watches.old.pairs }
    requires paired { (clause : List ℕ) → IsThere store.now slot clause
        → IsPaired watches.old slot clause }
    ensures vars { trail.new.vars ≡ trail.old.vars }
    ensures grown { IsForcedOn trail.old.places trail.new.places }
    ensures held { IsHeld (over trail.new store.now) }
    ensures is { IsAssigned trail.new }
    ensures keeps { Keeps store.now (lits_of trail.old.places) watches.old watches.new }
    ensures looked { IsLookedAt store.now trail.new watches.new slot result }
{
    for _ in 0..3 {
        match false_watch(trail.values(), watches, slot) {
            None => return Visit::Safe,
            Some(lit) => match visit_by(trail, store, watches, slot, lit) {
                Visit::Passed => {}
                Visit::Safe => return Visit::Safe,
                Visit::False => return Visit::False,
                Visit::Unsettled => return Visit::Unsettled,
            },
        }
    }
    Visit::Unsettled
}

/// Whether the clause of this slot is false, which has less than two literals. Else its literal becomes true.
fn look_at_short(trail: &mut Trail, store: &Store, slot: u32) -> bool
    requires slot { slot < length store.now.clauses }
    requires live { bit store.now.live slot ≡ true }
    requires is { IsAssigned trail.old }
    requires below { All (IsBelow trail.old.vars) store.now.clauses }
    requires held { IsHeld (over trail.old store.now) }
    requires short { (clause : List ℕ) → IsThere store.now slot clause → length clause < 2 }
    ensures vars { trail.new.vars ≡ trail.old.vars }
    ensures grown { IsForcedOn trail.old.places trail.new.places }
    ensures held { IsHeld (over trail.new store.now) }
    ensures is { IsAssigned trail.new }
    ensures conflict { OnTrue result (IsConflict (over trail.new store.now) slot) }
    ensures safe { OnFalse result ((clause : List ℕ) → IsThere store.now slot clause
        → IsTrueUnder (lits_of trail.new.places) clause) }
{
    let values = trail.values();
    let lits = store.clause(slot).lits();
    if lits.is_empty() {
        return true;
    }
    let lit = lits[0];
    if is_on(values, lit) {
        return false;
    }
    force(trail, store, slot, lit)
}

/// Whether the clause of this slot is false, if it is there. Else it is made safe: a literal of it is true, or two that are
/// not false watch it.
pub(crate) fn look(trail: &mut Trail, store: &Store, watches: &mut Watches, slot: u32) -> Visit
    requires is { IsAssigned trail.old }
    requires below { All (IsBelow trail.old.vars) store.now.clauses }
    requires held { IsHeld (over trail.old store.now) }
    requires wide { 2 * trail.old.vars ≤ length watches.old.lists }
    requires long { length store.now.clauses ≤ length watches.old.pairs }
    requires paired { ArePaired store.now watches.old }
    ensures vars { trail.new.vars ≡ trail.old.vars }
    ensures grown { IsForcedOn trail.old.places trail.new.places }
    ensures held { IsHeld (over trail.new store.now) }
    ensures is { IsAssigned trail.new }
    ensures keeps { Keeps store.now (lits_of trail.old.places) watches.old watches.new }
    ensures looked { IsLookedAt store.now trail.new watches.new slot result }
{
    if slot >= store.len() || !store.is_live(slot) {
        return Visit::Safe;
    }
    if store.clause(slot).lits().len() >= 2 {
        return look_at_long(trail, store, watches, slot);
    }
    if look_at_short(trail, store, slot) {
        Visit::False
    } else {
        Visit::Safe
    }
}
