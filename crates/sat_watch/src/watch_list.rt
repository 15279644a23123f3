//! What one literal watches.

ghost use Rattle.std.specs.Prelude.{◌≡◌, ◌≢◌, ℕ, ◌+◌, ◌<◌, ◌≤◌, ◌++◌, ◌∷◌, [], Contains, length, drop, slice_get, Some, IfSome};
ghost use Rattle.std.specs.Bool.{OnTrue, OnFalse};

use ja_base::Memory;
use std::alloc::Global;
use std::marker::Model;

/// Slots of clauses, with room for each clause that has the literal: the first `len` of `slots` count, and `uses` clauses may
/// come.
#[derive(Debug, Drop)]
pub(crate) struct WatchList {
    slots: Vec<u32>,
    len: u32,
    uses: u32,
}

impl Model for WatchList {
    ghost use Rattle.std.specs.Prelude.{ℕ, List, ◌≤◌, ◌<◌, ◌^◌, length, take};

    ghost Value = { List ℕ };

    ghost view = { λ a. take a.len a.slots.items };

    ghost invariant = { λ a. (a.len ≤ length a.slots.items) × (length a.slots.items < 2 ^ 32) };
}

impl WatchList {
    pub(crate) fn new(alloc: Global) -> WatchList
        ensures { result ≡ [] }
    {
        WatchList {
            slots: Vec::new(alloc),
            len: 0,
            uses: 0,
        }
    }

    /// Room for one more clause.
    pub(crate) fn widen(&mut self) -> Result<(), Memory>
        ensures { self.new ≡ self.old }
    {
        let uses = self.uses.saturating_add(1);
        if self.slots.len() < uses as usize {
            self.slots.push(0)?;
        }
        self.uses = uses;
        Ok(())
    }

    /// A clause went, so that another may take its room.
    pub(crate) fn narrow(&mut self)
        ensures { self.new ≡ self.old }
    {
        self.uses = self.uses.saturating_sub(1);
    }

    pub(crate) fn len(&self) -> u32
        ensures { result ≡ length self.now }
    {
        self.len
    }

    pub(crate) fn get(&self, at: u32) -> u32
        requires { at < length self.now }
        ensures { slice_get self.now at ≡ Some result }
    {
        self.slots[at as usize]
    }

    /// Where a slot stands.
    pub(crate) fn place_of(&self, slot: u32) -> Option<u32>
        ensures within { IfSome result (λ at. at < length self.now) }
        ensures is { IfSome result (λ at. slice_get self.now at ≡ Some slot) }
    {
        for at in 0..self.len {
            if self.slots[at as usize] == slot {
                return Some(at);
            }
        }
        None
    }

    /// Takes a slot in, if there is room.
    pub(crate) fn put(&mut self, slot: u32) -> bool
        ensures put { OnTrue result (self.new ≡ self.old ++ slot ∷ []) }
        ensures full { OnFalse result (self.new ≡ self.old) }
    {
        let at = self.len as usize;
        if at >= self.slots.len() {
            return false;
        }
        self.slots[at] = slot;
        self.len += 1;
        true
    }

    /// The slot of this place goes, and the last one takes its place.
    pub(crate) fn take_off(&mut self, at: u32)
        requires { at < length self.old }
        ensures fewer { length self.new + 1 ≡ length self.old }
        ensures others { (slot from k : ℕ) → slice_get self.old at ≡ Some slot → from ≤ at
            → k ≢ slot → Contains (drop from self.old) k → Contains (drop from self.new) k }
    {
        self.len -= 1;
        let last = self.slots[self.len as usize];
        self.slots[at as usize] = last;
    }
}
