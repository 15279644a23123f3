//! Clauses by slot.

ghost use Rattle.std.specs.Prelude.{◌≡◌, ◌<◌, ◌≤◌, ◌∷◌, ◌++◌, [], false, true, length, slice_get, slice_set, Some, IfOk, OnOk, OnErr};
ghost use Rattle.ja_base.specs.Literals.{bit};
ghost use Rattle.sat_watch.specs.Stores.{IsPut};

use crate::tag::Tag;
use ja_base::{Clause, Memory};
use std::alloc::Global;
use std::marker::Model;

/// A slot whose clause was let go is free for another. No slot below `lowest` is sought for a free one.
#[derive(Debug, Drop)]
pub(crate) struct Store {
    clauses: Vec<Clause>,
    live: Vec<bool>,
    tags: Vec<Tag>,
    lowest: u32,
}

impl Model for Store {
    ghost use Rattle.sat_watch.specs.Stores.{Stored};
    ghost use Rattle.sat_watch.specs.Slots.{AreSlots};

    ghost Value = { Stored };

    ghost view = { λ a. record {
      clauses = a.clauses.items;
      live = a.live.items;
      tags = a.tags.items;
    } };

    ghost invariant = { λ a. AreSlots a.clauses.items a.live.items a.tags.items };
}

impl Store {
    pub(crate) fn new(alloc: Global) -> Store
        ensures { result ≡ record { clauses = []; live = []; tags = [] } }
    {
        Store {
            clauses: Vec::new(alloc),
            live: Vec::new(alloc),
            tags: Vec::new(alloc),
            lowest: 0,
        }
    }

    pub(crate) fn len(&self) -> u32
        ensures len { result ≡ length self.now.clauses }
        ensures live { length self.now.live ≡ length self.now.clauses }
        ensures tags { length self.now.tags ≡ length self.now.clauses }
    {
        self.clauses.len() as u32
    }

    pub(crate) fn clause(&self, at: u32) -> &Clause
        requires { at < length self.now.clauses }
        ensures { slice_get self.now.clauses at ≡ Some result.now }
    {
        &self.clauses[at as usize]
    }

    pub(crate) fn is_live(&self, at: u32) -> bool
        requires { at < length self.now.clauses }
        ensures { result ≡ bit self.now.live at }
    {
        self.live[at as usize]
    }

    pub(crate) fn tag(&self, at: u32) -> Tag
        requires { at < length self.now.clauses }
        ensures { slice_get self.now.tags at ≡ Some result }
    {
        self.tags[at as usize]
    }

    /// A slot that is free, or the one behind the last.
    pub(crate) fn free_slot(&self) -> u32
        ensures within { result ≤ length self.now.clauses }
        ensures free { bit self.now.live result ≡ false }
        ensures wide { length self.now.live ≡ length self.now.clauses }
    {
        for at in self.lowest..self.len() {
            if !self.live[at as usize] {
                return at;
            }
        }
        self.len()
    }

    /// The clause takes this slot, which is free.
    fn reuse(&mut self, at: u32, clause: Clause, tag: Tag)
        requires { at < length self.old.clauses }
        ensures { self.new ≡ record {
          clauses = slice_set self.old.clauses at clause;
          live = slice_set self.old.live at true;
          tags = slice_set self.old.tags at tag;
        } }
    {
        self.clauses[at as usize] = clause;
        self.live[at as usize] = true;
        self.tags[at as usize] = tag;
        self.lowest = at + 1;
    }

    /// The clause takes a slot of its own.
    fn append(&mut self, clause: Clause, tag: Tag) -> Result<(), Memory>
        ensures ok { OnOk result (self.new ≡ record {
          clauses = self.old.clauses ++ clause ∷ [];
          live = self.old.live ++ true ∷ [];
          tags = self.old.tags ++ tag ∷ [];
        }) }
        ensures err { OnErr result (self.new ≡ self.old) }
    {
        if self.len() == u32::MAX {
            return Err(Memory);
        }
        self.clauses.reserve(1)?;
        self.live.reserve(1)?;
        self.tags.reserve(1)?;
        self.clauses.push_reserved(clause);
        self.live.push_reserved(true);
        self.tags.push_reserved(tag);
        self.lowest = self.len();
        Ok(())
    }

    /// The clause takes this slot, which is free.
    pub(crate) fn put(&mut self, at: u32, clause: Clause, tag: Tag) -> Result<(), Memory>
        requires within { at ≤ length self.old.clauses }
        requires free { bit self.old.live at ≡ false }
        ensures ok { OnOk result (IsPut self.old clause tag self.new at) }
        ensures err { OnErr result (self.new ≡ self.old) }
    {
        if at < self.len() {
            self.reuse(at, clause, tag);
            return Ok(());
        }
        self.append(clause, tag)?;
        Ok(())
    }

    /// The clause of this slot is let go.
    pub(crate) fn forget(&mut self, at: u32)
        requires { at < length self.old.clauses }
        ensures { self.new ≡ record self.old { live = slice_set self.old.live at false } }
    {
        self.live[at as usize] = false;
        self.lowest = self.lowest.min(at);
    }
}
