//! Unit propagation to its end.

ghost use Rattle.std.specs.Prelude.{◌≡◌, ◌<◌, ◌≤◌, ◌+◌, ◌^◌, false, All, length};
ghost use Rattle.ja_base.specs.Clauses.{IsBelow};
ghost use Rattle.sat_plain.specs.Trails.{IsAssigned, lits_of};
ghost use Rattle.sat_watch.specs.Stores.{IsHeld, over};
ghost use Rattle.sat_watch.specs.Steps.{IsForcedOn, IsStep};
ghost use Rattle.sat_watch.specs.Passes.{IsSwept};
ghost use Rattle.sat_watch.specs.Fronts.{IsReady, IsTended};

use crate::front::Front;
use crate::saturate::saturate;
use crate::step::Step;
use crate::store::Store;
use crate::sweep::{Swept, look_at_all, look_at_each, sweep};
use crate::watches::Watches;
use sat_plain::Trail;

/// Looks at all clauses.
fn look_again(trail: &mut Trail, store: &Store, watches: &mut Watches, front: &mut Front) -> Swept
    requires below { All (IsBelow trail.old.vars) store.now.clauses }
    requires held { IsHeld (over trail.old store.now) }
    requires tended { IsTended trail.old.vars store.now (lits_of trail.old.places) watches.old
        front.old }
    ensures vars { trail.new.vars ≡ trail.old.vars }
    ensures grown { IsForcedOn trail.old.places trail.new.places }
    ensures held { IsHeld (over trail.new store.now) }
    ensures is { IsAssigned trail.new }
    ensures tended { IsTended trail.old.vars store.now (lits_of trail.new.places) watches.new
        front.new }
    ensures swept { IsSwept store.now trail.new (IsReady front.new) result }
{
    let head = trail.len();
    match look_at_all(trail, store, watches) {
        Swept::Done => {
            front.head = head;
            front.seen = front.log.len();
            front.dirty = false;
            Swept::Done
        }
        Swept::False(at) => Swept::False(at),
        Swept::Unsettled => Swept::Unsettled,
    }
}

/// Looks at the clauses that came.
fn look_at_new(trail: &mut Trail, store: &Store, watches: &mut Watches, front: &mut Front) -> Swept
    requires clean { front.old.dirty ≡ false }
    requires is { IsAssigned trail.old }
    requires below { All (IsBelow trail.old.vars) store.now.clauses }
    requires held { IsHeld (over trail.old store.now) }
    requires tended { IsTended trail.old.vars store.now (lits_of trail.old.places) watches.old
        front.old }
    ensures vars { trail.new.vars ≡ trail.old.vars }
    ensures grown { IsForcedOn trail.old.places trail.new.places }
    ensures held { IsHeld (over trail.new store.now) }
    ensures is { IsAssigned trail.new }
    ensures tended { IsTended trail.old.vars store.now (lits_of trail.new.places) watches.new
        front.new }
    ensures swept { IsSwept store.now trail.new (IsReady front.new) result }
{
    match look_at_each(trail, store, watches, front.unseen()) {
        Swept::Done => {
            front.seen = front.log.len();
            Swept::Done
        }
        Swept::False(at) => Swept::False(at),
        Swept::Unsettled => Swept::Unsettled,
    }
}

/// Looks at the clauses that the negation of the literal of the next place watches.
fn look_on(trail: &mut Trail, store: &Store, watches: &mut Watches, front: &mut Front) -> Swept
    requires ready { IsReady front.old }
    requires head { front.old.head < length trail.old.places }
    requires small { front.old.head + 1 < 2 ^ 32 }
    requires is { IsAssigned trail.old }
    requires below { All (IsBelow trail.old.vars) store.now.clauses }
    requires held { IsHeld (over trail.old store.now) }
    requires tended { IsTended trail.old.vars store.now (lits_of trail.old.places) watches.old
        front.old }
    ensures vars { trail.new.vars ≡ trail.old.vars }
    ensures grown { IsForcedOn trail.old.places trail.new.places }
    ensures held { IsHeld (over trail.new store.now) }
    ensures is { IsAssigned trail.new }
    ensures tended { IsTended trail.old.vars store.now (lits_of trail.new.places) watches.new
        front.new }
    ensures swept { IsSwept store.now trail.new
        (IsReady front.new × (front.new.head ≡ front.old.head + 1)) result }
{
    let lit = trail.place(front.head).lit;
    match sweep(trail, store, watches, lit.not()) {
        Swept::Done => {
            front.head += 1;
            Swept::Done
        }
        Swept::False(at) => Swept::False(at),
        Swept::Unsettled => Swept::Unsettled,
    }
}

/// Goes on until nothing is left to look at, or a clause is false.
fn look_to_the_end(
    trail: &mut Trail,
    store: &Store,
    watches: &mut Watches,
    front: &mut Front,
) -> Swept
    requires ready { IsReady front.old }
    requires is { IsAssigned trail.old }
    requires below { All (IsBelow trail.old.vars) store.now.clauses }
    requires held { IsHeld (over trail.old store.now) }
    requires tended { IsTended trail.old.vars store.now (lits_of trail.old.places) watches.old
        front.old }
    ensures vars { trail.new.vars ≡ trail.old.vars }
    ensures grown { IsForcedOn trail.old.places trail.new.places }
    ensures held { IsHeld (over trail.new store.now) }
    ensures is { IsAssigned trail.new }
    ensures tended { IsTended trail.old.vars store.now (lits_of trail.new.places) watches.new
        front.new }
    ensures swept { IsSwept store.now trail.new (IsReady front.new
        × (length trail.new.places ≤ front.new.head)) result }
{
    while front.head < trail.len() {
        match look_on(trail, store, watches, front) {
            Swept::Done => {}
            Swept::False(at) => return Swept::False(at),
            Swept::Unsettled => return Swept::Unsettled,
        }
    }
    Swept::Done
}

/// Looks at the clauses that were not looked at since the last mark, and then goes on to the end.
fn look_through(trail: &mut Trail, store: &Store, watches: &mut Watches, front: &mut Front) -> Swept
    requires is { IsAssigned trail.old }
    requires below { All (IsBelow trail.old.vars) store.now.clauses }
    requires held { IsHeld (over trail.old store.now) }
    requires tended { IsTended trail.old.vars store.now (lits_of trail.old.places) watches.old
        front.old }
    ensures vars { trail.new.vars ≡ trail.old.vars }
    ensures grown { IsForcedOn trail.old.places trail.new.places }
    ensures held { IsHeld (over trail.new store.now) }
    ensures is { IsAssigned trail.new }
    ensures tended { IsTended trail.old.vars store.now (lits_of trail.new.places) watches.new
        front.new }
    ensures swept { IsSwept store.now trail.new (IsReady front.new
        × (length trail.new.places ≤ front.new.head)) result }
{
    match look(trail, store, watches, front) {
        Swept::Done => look_to_the_end(trail, store, watches, front),
        Swept::False(at) => Swept::False(at),
        Swept::Unsettled => Swept::Unsettled,
    }
}

/// Propagates until all is quiet, or a clause is false.
pub(crate) fn propagate(
    trail: &mut Trail,
    store: &Store,
    watches: &mut Watches,
    front: &mut Front,
) -> Step
    requires below { All (IsBelow trail.old.vars) store.now.clauses }
    requires held { IsHeld (over trail.old store.now) }
    requires tended { IsTended trail.old.vars store.now (lits_of trail.old.places) watches.old
        front.old }
    ensures vars { trail.new.vars ≡ trail.old.vars }
    ensures grown { IsForcedOn trail.old.places trail.new.places }
    ensures held { IsHeld (over trail.new store.now) }
    ensures is { IsAssigned trail.new }
    ensures step { IsStep (over trail.new store.now) result }
    ensures tended { IsTended trail.new.vars store.now (lits_of trail.new.places) watches.new
        front.new }
{
    let _len = trail.len();
    match look_through(trail, store, watches, front) {
        Swept::Done => {
            front.settle(trail.len());
            Step::Quiet
        }
        Swept::False(at) => Step::Conflict(at),
        Swept::Unsettled => {
            front.dirty = true;
            saturate(trail, store)
        }
    }
}

/// Looks at the clauses that were not looked at since the last mark.
fn look(trail: &mut Trail, store: &Store, watches: &mut Watches, front: &mut Front) -> Swept
    requires is { IsAssigned trail.old }
    requires below { All (IsBelow trail.old.vars) store.now.clauses }
    requires held { IsHeld (over trail.old store.now) }
    requires tended { IsTended trail.old.vars store.now (lits_of trail.old.places) watches.old
        front.old }
    ensures vars { trail.new.vars ≡ trail.old.vars }
    ensures grown { IsForcedOn trail.old.places trail.new.places }
    ensures held { IsHeld (over trail.new store.now) }
    ensures is { IsAssigned trail.new }
    ensures tended { IsTended trail.old.vars store.now (lits_of trail.new.places) watches.new
        front.new }
    ensures swept { IsSwept store.now trail.new (IsReady front.new) result }
{
    if front.dirty {
        look_again(trail, store, watches, front)
    } else {
        look_at_new(trail, store, watches, front)
    }
}
