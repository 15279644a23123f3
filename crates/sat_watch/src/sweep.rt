//! Passes over clauses.

ghost use Rattle.std.specs.Prelude.{◌≡◌, ℕ, ◌*◌, ◌<◌, ◌≤◌, true, List, All, Contains, length};
ghost use Rattle.ja_base.specs.Literals.{bit, negated};
ghost use Rattle.ja_base.specs.Clauses.{IsBelow};
ghost use Rattle.sat_plain.specs.Trails.{IsAssigned, lits_of};
ghost use Rattle.sat_watch.specs.Stores.{IsHeld, IsThere, over};
ghost use Rattle.sat_watch.specs.Steps.{IsForcedOn};
ghost use Rattle.sat_watch.specs.Watching.{ArePaired, Keeps, slots_at};
ghost use Rattle.sat_watch.specs.Visits.{AreSwept, IsBased, IsSafe};
ghost use Rattle.sat_watch.specs.Passes.{IsSwept};

use crate::look::look;
use crate::store::Store;
use crate::visit::{Visit, visit_slot};
use crate::watches::Watches;
use ja_base::Lit;
use sat_plain::Trail;

/// What comes of a pass.
#[derive(Clone, Copy, Debug, PartialEq, Eq)]
pub(crate) enum Swept {
    Done,
    /// The clause of this slot is false.
    False(u32),
    /// It is not known whether one is false.
    Unsettled,
}

/// Visits the clauses that a literal watches, which is false.
pub(crate) fn sweep(trail: &mut Trail, store: &Store, watches: &mut Watches, lit: Lit) -> Swept
    requires is { IsAssigned trail.old }
    requires below { All (IsBelow trail.old.vars) store.now.clauses }
    requires held { IsHeld (over trail.old store.now) }
    requires wide { 2 * trail.old.vars ≤ length watches.old.lists }
    requires long { length store.now.clauses ≤ length watches.old.pairs }
    requires within { lit < length watches.old.lists }
    requires wrong { bit trail.old.values (negated lit) ≡ true }
    requires based { (k : ℕ) → IsBased store.now (lits_of trail.old.places) watches.old k }
    ensures vars { trail.new.vars ≡ trail.old.vars }
    ensures grown { IsForcedOn trail.old.places trail.new.places }
    ensures held { IsHeld (over trail.new store.now) }
    ensures is { IsAssigned trail.new }
    ensures keeps { Keeps store.now (lits_of trail.old.places) watches.old watches.new }
    ensures swept { IsSwept store.now trail.new (AreSwept store.now (lits_of trail.old.places)
        watches.old (lits_of trail.new.places) watches.new lit
        (length (slots_at watches.new lit))) result }
{
    let mut at = 0;
    while at < watches.count(lit) {
        let slot = watches.slot(lit, at);
        match visit_slot(trail, store, watches, lit, at, slot) {
            Visit::Safe => at += 1,
            Visit::Passed => {}
            Visit::False => return Swept::False(slot),
            Visit::Unsettled => return Swept::Unsettled,
        }
    }
    Swept::Done
}

/// Looks at the clauses of these slots.
pub(crate) fn look_at_each(
    trail: &mut Trail,
    store: &Store,
    watches: &mut Watches,
    slots: &[u32],
) -> Swept
    requires is { IsAssigned trail.old }
    requires below { All (IsBelow trail.old.vars) store.now.clauses }
    requires held { IsHeld (over trail.old store.now) }
    requires wide { 2 * trail.old.vars ≤ length watches.old.lists }
    requires long { length store.now.clauses ≤ length watches.old.pairs }
    requires paired { ArePaired store.now watches.old }
    ensures vars { trail.new.vars ≡ trail.old.vars }
    ensures grown { IsForcedOn trail.old.places trail.new.places }
    ensures held { IsHeld (over trail.new store.now) }
    ensures is { IsAssigned trail.new }
    ensures keeps { Keeps store.now (lits_of trail.old.places) watches.old watches.new }
    ensures swept { IsSwept store.now trail.new ((k : ℕ) (clause : List ℕ) → Contains slots.now k
        → IsThere store.now k clause → IsSafe watches.new (lits_of trail.new.places)
        (lits_of trail.old.places) k clause) result }
{
    for slot in slots {
        match look(trail, store, watches, *slot) {
            Visit::Safe => {}
            Visit::False => return Swept::False(*slot),
            Visit::Passed | Visit::Unsettled => return Swept::Unsettled,
        }
    }
    Swept::Done
}

/// Looks at all clauses.
pub(crate) fn look_at_all(trail: &mut Trail, store: &Store, watches: &mut Watches) -> Swept
    requires is { IsAssigned trail.old }
    requires below { All (IsBelow trail.old.vars) store.now.clauses }
    requires held { IsHeld (over trail.old store.now) }
    requires wide { 2 * trail.old.vars ≤ length watches.old.lists }
    requires long { length store.now.clauses ≤ length watches.old.pairs }
    requires paired { ArePaired store.now watches.old }
    ensures vars { trail.new.vars ≡ trail.old.vars }
    ensures grown { IsForcedOn trail.old.places trail.new.places }
    ensures held { IsHeld (over trail.new store.now) }
    ensures is { IsAssigned trail.new }
    ensures keeps { Keeps store.now (lits_of trail.old.places) watches.old watches.new }
    ensures swept { IsSwept store.now trail.new ((k : ℕ) (clause : List ℕ)
        → IsThere store.now k clause → IsSafe watches.new (lits_of trail.new.places)
        (lits_of trail.old.places) k clause) result }
{
    for slot in 0..store.len() {
        match look(trail, store, watches, slot) {
            Visit::Safe => {}
            Visit::False => return Swept::False(slot),
            Visit::Passed | Visit::Unsettled => return Swept::Unsettled,
        }
    }
    Swept::Done
}
