//! Clauses by number, and a trail over them.

ghost use Rattle.std.specs.Prelude.{◌≡◌, ℕ, ◌+◌, ◌<◌, ◌≤◌, ◌^◌, ◌∷◌, ◌++◌, [], List, All, true, None, Some, length, take, slice_get, IfOk, OnOk, OnErr, ◌-◌};
ghost use Rattle.ja_base.specs.Clauses.{IsBelow};
ghost use Rattle.ja_base.specs.Literals.{bit, variable};
ghost use Rattle.ja_base.specs.Trails.{IsForcedBy};
ghost use Rattle.sat_plain.specs.Trails.{lits_of, IsAssigned};
ghost use Rattle.sat_watch.specs.Stores.{IsHeld, IsThere, value_of};
ghost use Rattle.sat_watch.specs.Steps.{IsForcedOn, IsStep};
ghost use Rattle.sat_cdcl.specs.Files.{list_of, places_of, IsNumbered, IsRooted};

use ja_base::{Clause, Lit, Memory, Var};
use sat_plain::{Place, Trail};
use sat_watch::{Step, Tag, Watch};
use std::alloc::Global;
use std::marker::Model;

/// The slot of each clause by its number. A checker gives a clause the same number.
#[derive(Debug, Drop)]
pub(crate) struct Database {
    watch: Watch,
    slots: Vec<u32>,
}

impl Model for Database {
    ghost use Rattle.std.specs.Prelude.{All, length, ◌<◌, ◌^◌};
    ghost use Rattle.ja_base.specs.Clauses.{IsBelow};
    ghost use Rattle.refute_check.specs.Checked.{clauses_at};
    ghost use Rattle.sat_cdcl.specs.Files.{Filed, IsNumbered};

    ghost Value = { Filed };

    ghost view = { λ a. record { watched = a.watch; slots = a.slots.items } };

    ghost invariant = { λ a. IsNumbered a.watch.store a.slots.items
        × All (IsBelow a.watch.trail.vars) (clauses_at a.watch.store.clauses a.slots.items)
        × (length a.slots.items < 2 ^ 32) };
}

impl Database {
    /// No clause is there, and no literal is true.
    pub(crate) fn new(alloc: Global, vars: u32) -> Result<Database, Memory>
        requires { vars ≤ 2 ^ 31 }
        ensures vars { IfOk result (λ db. db.watched.trail.vars ≡ vars) }
        ensures places { IfOk result (λ db. places_of db ≡ []) }
        ensures list { IfOk result (λ db. list_of db ≡ []) }
    {
        let watch = Watch::new(alloc, vars)?;
        Ok(Database {
            watch,
            slots: Vec::new(alloc),
        })
    }

    /// One more variable, the least that it does not have yet. It has no value.
    pub(crate) fn fresh(&mut self) -> Result<Var, Memory>
        ensures var { IfOk result (λ var. var ≡ self.old.watched.trail.vars) }
        ensures small { IfOk result (λ var. var < 2 ^ 31) }
        ensures ok { OnOk result
            (self.new.watched.trail.vars ≡ self.old.watched.trail.vars + 1) }
        ensures places { places_of self.new ≡ places_of self.old }
        ensures list { list_of self.new ≡ list_of self.old }
        ensures err { OnErr result (self.new ≡ self.old) }
    {
        let var = self.watch.fresh()?;
        Ok(var)
    }

    /// How many clauses it has.
    pub(crate) fn len(&self) -> u32
        ensures slots { result ≡ length self.now.slots }
        ensures list { result ≡ length (list_of self.now) }
    {
        self.slots.len() as u32
    }

    /// The trail. Its reasons are slots.
    pub(crate) fn trail(&self) -> &Trail
        ensures value { result.now ≡ self.now.watched.trail }
        ensures held { IsHeld self.now.watched }
        ensures numbered { IsNumbered self.now.watched.store self.now.slots }
        ensures below { All (IsBelow self.now.watched.trail.vars) (list_of self.now) }
    {
        self.watch.trail()
    }

    pub(crate) fn vars(&self) -> u32
        ensures { result ≡ self.now.watched.trail.vars }
    {
        self.watch.trail().vars()
    }

    /// The place of the trail with this number. Its reason is a slot.
    pub(crate) fn place(&self, at: u32) -> Place
        requires { at < length (places_of self.now) }
        ensures value { slice_get (places_of self.now) at ≡ Some result }
        ensures is { IsAssigned self.now.watched.trail }
        ensures held { IsHeld self.now.watched }
    {
        *self.watch.trail().place(at)
    }

    /// The clause of this slot.
    pub(crate) fn clause(&self, slot: u32) -> &Clause
        requires { bit self.now.watched.store.live slot ≡ true }
        ensures there { IsThere self.now.watched.store slot result.now }
        ensures below { IsBelow self.now.watched.trail.vars result.now }
    {
        self.watch.clause(slot)
    }

    /// The number of the clause of this slot.
    pub(crate) fn number(&self, slot: u32) -> u32
        requires { bit self.now.watched.store.live slot ≡ true }
        ensures { (clause : List ℕ) → IsThere self.now.watched.store slot clause
            → slice_get (list_of self.now) result ≡ Some clause }
    {
        self.watch.tag(slot).number
    }

    /// The clause of this number.
    pub(crate) fn numbered(&self, number: u32) -> &Clause
        requires { number < length (list_of self.now) }
        ensures is { slice_get (list_of self.now) number ≡ Some result.now }
        ensures below { IsBelow self.now.watched.trail.vars result.now }
    {
        self.watch.clause(self.slots[number as usize])
    }

    /// The clause takes the next number, and a slot, which is told. It is not propagated.
    pub(crate) fn put(&mut self, clause: Clause) -> Result<u32, Memory>
        requires { IsBelow self.old.watched.trail.vars clause }
        ensures slots { IfOk result (λ slot. self.new.slots ≡ self.old.slots ++ slot ∷ []) }
        ensures list { OnOk result (list_of self.new ≡ list_of self.old ++ clause ∷ []) }
        ensures there { IfOk result (λ slot. IsThere self.new.watched.store slot clause) }
        ensures trail { self.new.watched.trail ≡ self.old.watched.trail }
        ensures err { OnErr result (self.new ≡ self.old) }
    {
        let number = self.len();
        if number == u32::MAX {
            return Err(Memory);
        }
        self.slots.reserve(1)?;
        let tag = Tag {
            tainted: false,
            number,
        };
        let slot = self.watch.add(clause, tag)?;
        self.slots.push_reserved(slot);
        Ok(slot)
    }

    /// The clause of the greatest number is let go.
    fn pop(&mut self)
        requires some { 0 < length self.old.slots }
        requires rooted { IsRooted (length self.old.slots - 1) self.old }
        ensures trail { self.new.watched.trail ≡ self.old.watched.trail }
        ensures slots { self.new.slots ≡ take (length self.old.slots - 1) self.old.slots }
        ensures list { list_of self.new ≡ take (length self.old.slots - 1) (list_of self.old) }
    {
        if let Some(slot) = self.slots.pop() {
            self.watch.forget(slot);
        }
    }

    /// Keeps the first clauses, so many, of which those are that force what is true.
    pub(crate) fn cut(&mut self, to: u32)
        requires within { to ≤ length self.old.slots }
        requires rooted { IsRooted to self.old }
        ensures trail { self.new.watched.trail ≡ self.old.watched.trail }
        ensures slots { self.new.slots ≡ take to self.old.slots }
        ensures list { list_of self.new ≡ take to (list_of self.old) }
    {
        while self.len() > to {
            self.pop();
        }
    }

    /// Keeps the first places of the trail, so many.
    pub(crate) fn undo(&mut self, to: u32)
        requires { to ≤ length (places_of self.old) }
        ensures vars { self.new.watched.trail.vars ≡ self.old.watched.trail.vars }
        ensures places { places_of self.new ≡ take to (places_of self.old) }
        ensures is { IsAssigned self.new.watched.trail }
        ensures store { self.new.watched.store ≡ self.old.watched.store }
        ensures slots { self.new.slots ≡ self.old.slots }
        ensures list { list_of self.new ≡ list_of self.old }
    {
        self.watch.undo(to);
    }

    /// The literal is decided, and all that follows from it becomes true.
    pub(crate) fn assign(&mut self, lit: Lit) -> Step
        requires below { variable lit < self.old.watched.trail.vars }
        requires unset { value_of self.old.watched.trail.values lit ≡ None }
        ensures vars { self.new.watched.trail.vars ≡ self.old.watched.trail.vars }
        ensures places { IsForcedOn (places_of self.old
            ++ record { lit = lit; reason = None } ∷ []) (places_of self.new) }
        ensures store { self.new.watched.store ≡ self.old.watched.store }
        ensures slots { self.new.slots ≡ self.old.slots }
        ensures is { IsAssigned self.new.watched.trail }
        ensures list { list_of self.new ≡ list_of self.old }
        ensures step { IsStep self.new.watched result }
    {
        self.watch.assign(lit)
    }

    /// The literal that the clause of this slot forces becomes true, and all that follows from it.
    pub(crate) fn force(&mut self, lit: Lit, slot: u32) -> Step
        requires below { variable lit < self.old.watched.trail.vars }
        requires unset { value_of self.old.watched.trail.values lit ≡ None }
        requires forced { IsForcedBy self.old.watched.store.clauses
            (lits_of (places_of self.old)) lit slot }
        requires live { bit self.old.watched.store.live slot ≡ true }
        ensures vars { self.new.watched.trail.vars ≡ self.old.watched.trail.vars }
        ensures places { IsForcedOn (places_of self.old
            ++ record { lit = lit; reason = Some slot } ∷ []) (places_of self.new) }
        ensures store { self.new.watched.store ≡ self.old.watched.store }
        ensures slots { self.new.slots ≡ self.old.slots }
        ensures is { IsAssigned self.new.watched.trail }
        ensures list { list_of self.new ≡ list_of self.old }
        ensures step { IsStep self.new.watched result }
    {
        self.watch.force(lit, slot)
    }

    /// All that follows from what is true becomes true.
    pub(crate) fn propagate(&mut self) -> Step
        ensures vars { self.new.watched.trail.vars ≡ self.old.watched.trail.vars }
        ensures places { IsForcedOn (places_of self.old) (places_of self.new) }
        ensures store { self.new.watched.store ≡ self.old.watched.store }
        ensures slots { self.new.slots ≡ self.old.slots }
        ensures is { IsAssigned self.new.watched.trail }
        ensures list { list_of self.new ≡ list_of self.old }
        ensures step { IsStep self.new.watched result }
    {
        self.watch.propagate()
    }
}
