//! A trail over clauses, with propagation.

ghost use Rattle.std.specs.Prelude.{◌≡◌, ◌+◌, ◌<◌, ◌≤◌, ◌^◌, ◌∷◌, ◌++◌, [], Bool, false, true, None, Some, length, take, slice_get, slice_set, IfOk, OnOk, OnErr};
ghost use Rattle.ja_base.specs.Clauses.{IsBelow};
ghost use Rattle.ja_base.specs.Literals.{bit, variable, negated};
ghost use Rattle.ja_base.specs.Trails.{IsForcedBy};
ghost use Rattle.sat_plain.specs.Trails.{lits_of, IsAssigned};
ghost use Rattle.sat_watch.specs.Stores.{IsHeld, IsIdle, IsPut, value_of};
ghost use Rattle.sat_watch.specs.Steps.{IsForcedOn, IsStep};

use crate::front::Front;
use crate::propagate::propagate;
use crate::step::Step;
use crate::store::Store;
use crate::tag::Tag;
use crate::watches::Watches;
use ja_base::{Clause, Lit, Memory, Var};
use sat_plain::Trail;
use std::alloc::Global;
use std::marker::Model;

/// Clauses in slots, and the literals that are true. No call but `new`, `fresh` and `add` takes memory.
#[derive(Debug, Drop)]
pub struct Watch {
    trail: Trail,
    store: Store,
    watches: Watches,
    front: Front,
}

impl Model for Watch {
    ghost use Rattle.std.specs.Prelude.{All};
    ghost use Rattle.ja_base.specs.Clauses.{IsBelow};
    ghost use Rattle.sat_plain.specs.Trails.{lits_of};
    ghost use Rattle.sat_watch.specs.Stores.{Watched, IsHeld, over};
    ghost use Rattle.sat_watch.specs.Fronts.{IsTended};

    ghost Value = { Watched };

    ghost view = { λ a. over a.trail a.store };

    ghost invariant = { λ a. All (IsBelow a.trail.vars) a.store.clauses
        × IsHeld (over a.trail a.store)
        × IsTended a.trail.vars a.store (lits_of a.trail.places) a.watches a.front };
}

impl Watch {
    /// No clause is there, and no literal is true.
    pub fn new(alloc: Global, vars: u32) -> Result<Watch, Memory>
        requires { vars ≤ 2 ^ 31 }
        ensures vars { IfOk result (λ watch. watch.trail.vars ≡ vars) }
        ensures places { IfOk result (λ watch. watch.trail.places ≡ []) }
        ensures store { IfOk result (λ watch. watch.store
            ≡ record { clauses = []; live = []; tags = [] }) }
    {
        let trail = Trail::new(alloc, vars)?;
        let watches = Watches::new(alloc, vars)?;
        let front = Front::new(alloc, vars)?;
        Ok(Watch {
            trail,
            store: Store::new(alloc),
            watches,
            front,
        })
    }

    /// One more variable, the least that it does not have yet. It has no value.
    pub fn fresh(&mut self) -> Result<Var, Memory>
        ensures var { IfOk result (λ var. var ≡ self.old.trail.vars) }
        ensures small { IfOk result (λ var. var < 2 ^ 31) }
        ensures ok { OnOk result (self.new.trail.vars ≡ self.old.trail.vars + 1) }
        ensures places { self.new.trail.places ≡ self.old.trail.places }
        ensures store { self.new.store ≡ self.old.store }
        ensures err { OnErr result (self.new ≡ self.old) }
    {
        self.front.fresh()?;
        self.watches.fresh()?;
        self.watches.fresh()?;
        let var = self.trail.fresh()?;
        Ok(var)
    }

    /// The clause takes a free slot, which is told. It is not propagated.
    pub fn add(&mut self, clause: Clause, tag: Tag) -> Result<u32, Memory>
        requires { IsBelow self.old.trail.vars clause }
        ensures ok { IfOk result (IsPut self.old.store clause tag self.new.store) }
        ensures trail { self.new.trail ≡ self.old.trail }
        ensures err { OnErr result (self.new ≡ self.old) }
    {
        let at = self.store.free_slot();
        self.watches.enter(at, clause.lits())?;
        self.front.note(at)?;
        self.store.put(at, clause, tag)?;
        Ok(at)
    }

    /// The clause of this slot, which forces no literal, is let go. Its slot is free.
    pub fn forget(&mut self, at: u32)
        requires within { at < length self.old.store.clauses }
        requires idle { IsIdle self.old.trail.places at }
        ensures trail { self.new.trail ≡ self.old.trail }
        ensures store { self.new.store
            ≡ record self.old.store { live = slice_set self.old.store.live at false } }
    {
        self.watches.leave(at, self.store.clause(at).lits());
        self.store.forget(at);
    }

    /// How many slots there are, free ones among them.
    pub fn slots(&self) -> u32
        ensures slots { result ≡ length self.now.store.clauses }
        ensures live { length self.now.store.live ≡ length self.now.store.clauses }
    {
        self.store.len()
    }

    pub fn is_live(&self, at: u32) -> bool
        requires { at < length self.now.store.clauses }
        ensures { result ≡ bit self.now.store.live at }
    {
        self.store.is_live(at)
    }

    pub fn clause(&self, at: u32) -> &Clause
        requires { at < length self.now.store.clauses }
        ensures is { slice_get self.now.store.clauses at ≡ Some result.now }
        ensures below { IsBelow self.now.trail.vars result.now }
    {
        self.store.clause(at)
    }

    pub fn tag(&self, at: u32) -> Tag
        requires { at < length self.now.store.clauses }
        ensures { slice_get self.now.store.tags at ≡ Some result }
    {
        self.store.tag(at)
    }

    /// The trail, with the reason of each place.
    pub fn trail(&self) -> &Trail
        ensures value { result.now ≡ self.now.trail }
        ensures held { IsHeld self.now }
    {
        &self.trail
    }

    /// None where the literal has no value.
    pub fn value(&self, lit: Lit) -> Option<bool>
        requires { variable lit < self.now.trail.vars }
        ensures { result ≡ value_of self.now.trail.values lit }
    {
        if self.trail.is_true(lit) {
            return Some(true);
        }
        if self.trail.is_true(lit.not()) {
            Some(false)
        } else {
            None
        }
    }

    /// Keeps the first places of the trail, so many.
    pub fn undo(&mut self, to: u32)
        requires { to ≤ length self.old.trail.places }
        ensures vars { self.new.trail.vars ≡ self.old.trail.vars }
        ensures places { self.new.trail.places ≡ take to self.old.trail.places }
        ensures is { IsAssigned self.new.trail }
        ensures store { self.new.store ≡ self.old.store }
    {
        self.front.retreat(to, self.trail.len());
        self.trail.undo(to);
    }

    /// The literal is decided, and all that follows from it becomes true.
    pub fn assign(&mut self, lit: Lit) -> Step
        requires below { variable lit < self.old.trail.vars }
        requires unset { value_of self.old.trail.values lit ≡ None }
        ensures vars { self.new.trail.vars ≡ self.old.trail.vars }
        ensures places { IsForcedOn (self.old.trail.places
            ++ record { lit = lit; reason = None } ∷ []) self.new.trail.places }
        ensures store { self.new.store ≡ self.old.store }
        ensures is { IsAssigned self.new.trail }
        ensures step { IsStep self.new result }
    {
        self.trail.push(lit, None);
        propagate(
            &mut self.trail,
            &self.store,
            &mut self.watches,
            &mut self.front,
        )
    }

    /// The literal that the clause of this slot forces becomes true, and all that follows from it.
    pub fn force(&mut self, lit: Lit, at: u32) -> Step
        requires below { variable lit < self.old.trail.vars }
        requires unset { value_of self.old.trail.values lit ≡ None }
        requires forced { IsForcedBy self.old.store.clauses
            (lits_of self.old.trail.places) lit at }
        requires live { bit self.old.store.live at ≡ true }
        ensures vars { self.new.trail.vars ≡ self.old.trail.vars }
        ensures places { IsForcedOn (self.old.trail.places
            ++ record { lit = lit; reason = Some at } ∷ []) self.new.trail.places }
        ensures store { self.new.store ≡ self.old.store }
        ensures is { IsAssigned self.new.trail }
        ensures step { IsStep self.new result }
    {
        self.trail.push(lit, Some(at));
        propagate(
            &mut self.trail,
            &self.store,
            &mut self.watches,
            &mut self.front,
        )
    }

    /// All that follows from what is true becomes true.
    pub fn propagate(&mut self) -> Step
        ensures vars { self.new.trail.vars ≡ self.old.trail.vars }
        ensures places { IsForcedOn self.old.trail.places self.new.trail.places }
        ensures store { self.new.store ≡ self.old.store }
        ensures is { IsAssigned self.new.trail }
        ensures step { IsStep self.new result }
    {
        propagate(
            &mut self.trail,
            &self.store,
            &mut self.watches,
            &mut self.front,
        )
    }
}
