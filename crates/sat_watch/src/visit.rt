//! A clause that is looked at by one of the literals that watch it.

ghost use Rattle.std.specs.Prelude.{◌≡◌, ◌≢◌, ℕ, ◌*◌, ◌<◌, ◌≤◌, Bool, true, false, List, All, Contains, length, slice_get, Some, IfSome, IfNone};
ghost use Rattle.std.specs.Bool.{OnTrue, OnFalse};
ghost use Rattle.ja_base.specs.Literals.{bit, negated};
ghost use Rattle.ja_base.specs.Clauses.{IsBelow};
ghost use Rattle.sat_plain.specs.Trails.{IsAssigned, lits_of};
ghost use Rattle.sat_watch.specs.Stores.{IsHeld, IsThere, over};
ghost use Rattle.sat_watch.specs.Steps.{IsForcedOn, IsConflict};
ghost use Rattle.sat_watch.specs.Watching.{slots_at, IsOther, Keeps};
ghost use Rattle.sat_watch.specs.Visits.{IsBased, IsTrueUnder, IsVisitedAt};

use crate::pair::Pair;
use crate::store::Store;
use crate::watches::Watches;
use ja_base::Lit;
use sat_plain::Trail;

/// What a visit finds.
#[derive(Clone, Copy, Debug, PartialEq, Eq)]
pub(crate) enum Visit {
    /// A literal of the clause is true, or two that are not false watch it, or there is none.
    Safe,
    /// Another literal watches it.
    Passed,
    /// It is false.
    False,
    /// It is not known whether it is false.
    Unsettled,
}

/// Whether the literal is true.
pub(crate) fn is_on(values: &[bool], lit: Lit) -> bool
    ensures { result ≡ bit values.now lit }
{
    let at = lit.number() as usize;
    at < values.len() && values[at]
}

/// Whether the literal is another one, and not false.
fn is_open_besides(values: &[bool], lit: Lit, other: Lit) -> bool
    ensures open { OnTrue result ((lit ≢ other) × (bit values.now (negated lit) ≡ false)) }
    ensures closed { OnFalse result (lit ≢ other → bit values.now (negated lit) ≡ true) }
{
    lit != other && !is_on(values, lit.not())
}

/// The first of these literals that is not false, but for another one.
fn open_besides(values: &[bool], lits: &[Lit], other: Lit) -> Option<Lit>
    ensures some { IfSome result (λ to. Contains lits.now to × (to ≢ other)
        × (bit values.now (negated to) ≡ false)) }
    ensures none { IfNone result ((m : ℕ) → Contains lits.now m → m ≢ other
        → bit values.now (negated m) ≡ true) }
{
    for lit in lits {
        if is_open_besides(values, *lit, other) {
            return Some(*lit);
        }
    }
    None
}

/// Whether the clause of this slot is false, all of whose literals are but for this one, which is not true. Else it becomes
/// true.
pub(crate) fn force(trail: &mut Trail, store: &Store, slot: u32, lit: Lit) -> bool
    requires slot { slot < length store.now.clauses }
    requires live { bit store.now.live slot ≡ true }
    requires below { All (IsBelow trail.old.vars) store.now.clauses }
    requires held { IsHeld (over trail.old store.now) }
    requires has { (clause : List ℕ) → IsThere store.now slot clause → Contains clause lit }
    requires unset { bit trail.old.values lit ≡ false }
    requires others { (clause : List ℕ) (m : ℕ) → IsThere store.now slot clause → Contains clause m
        → m ≢ lit → bit trail.old.values (negated m) ≡ true }
    ensures vars { trail.new.vars ≡ trail.old.vars }
    ensures grown { IsForcedOn trail.old.places trail.new.places }
    ensures held { IsHeld (over trail.new store.now) }
    ensures is { IsAssigned trail.new }
    ensures conflict { OnTrue result (IsConflict (over trail.new store.now) slot) }
    ensures forced { OnFalse result (Contains (lits_of trail.new.places) lit) }
{
    let _clause = store.clause(slot);
    if is_on(trail.values(), lit.not()) {
        return true;
    }
    trail.push(lit, Some(slot));
    false
}

/// Whether the clause of this slot is there and false, all of whose literals are but for this one, which is not true. Else it
/// becomes true.
fn settle(trail: &mut Trail, store: &Store, slot: u32, lit: Lit) -> bool
    requires slot { slot < length store.now.clauses }
    requires is { IsAssigned trail.old }
    requires below { All (IsBelow trail.old.vars) store.now.clauses }
    requires held { IsHeld (over trail.old store.now) }
    requires has { (clause : List ℕ) → IsThere store.now slot clause → Contains clause lit }
    requires unset { bit trail.old.values lit ≡ false }
    requires others { (clause : List ℕ) (m : ℕ) → IsThere store.now slot clause → Contains clause m
        → m ≢ lit → bit trail.old.values (negated m) ≡ true }
    ensures vars { trail.new.vars ≡ trail.old.vars }
    ensures grown { IsForcedOn trail.old.places trail.new.places }
    ensures held { IsHeld (over trail.new store.now) }
    ensures is { IsAssigned trail.new }
    ensures conflict { OnTrue result (IsConflict (over trail.new store.now) slot) }
    ensures safe { OnFalse result ((clause : List ℕ) → IsThere store.now slot clause
        → IsTrueUnder (lits_of trail.new.places) clause) }
{
    if !store.is_live(slot) {
        return false;
    }
    force(trail, store, slot, lit)
}

/// The other literal that watches the clause of this slot.
fn other_of(watches: &Watches, slot: u32, lit: Lit) -> Lit
    requires { slot < length watches.now.pairs }
    ensures { IsOther watches.now slot lit result }
{
    let Pair { one, two } = watches.pair(slot);
    if one == lit { two } else { one }
}

/// What is found of the clause of this slot, which stands at this place of the list of a literal that is false. Another one
/// watches it, unless one is true or no other is left; that becomes true.
pub(crate) fn visit_slot(
    trail: &mut Trail,
    store: &Store,
    watches: &mut Watches,
    lit: Lit,
    at: u32,
    slot: u32,
) -> Visit
    requires is { IsAssigned trail.old }
    requires below { All (IsBelow trail.old.vars) store.now.clauses }
    requires held { IsHeld (over trail.old store.now) }
    requires wide { 2 * trail.old.vars ≤ length watches.old.lists }
    requires long { length store.now.clauses ≤ length watches.old.pairs }
    requires wrong { bit trail.old.values (negated lit) ≡ true }
    requires at { at < length (slots_at watches.old lit) }
    requires stands { slice_get (slots_at watches.old lit) at ≡ Some slot }
    requires based { IsBased store.now (lits_of trail.old.places) watches.old slot }
    ensures vars { trail.new.vars ≡ trail.old.vars }
    ensures grown { IsForcedOn trail.old.places trail.new.places }
    ensures held { IsHeld (over trail.new store.now) }
    ensures is { IsAssigned trail.new }
    ensures keeps { Keeps store.now (lits_of trail.old.places) watches.old watches.new }
    ensures visited { IsVisitedAt store.now trail.old trail.new watches.old watches.new lit at slot
        result }
{
    let values = trail.values();
    if slot >= store.len() {
        return Visit::Safe;
    }
    let other = other_of(watches, slot, lit);
    if is_on(values, other) {
        return Visit::Safe;
    }
    match open_besides(values, store.clause(slot).lits(), other) {
        Some(to) => {
            if watches.pass(lit, at, slot, other, to) {
                Visit::Passed
            } else {
                Visit::Unsettled
            }
        }
        None => {
            if settle(trail, store, slot, other) {
                Visit::False
            } else {
                Visit::Safe
            }
        }
    }
}
