//! Which literals watch a clause, and which clauses a literal watches.

ghost use Rattle.std.specs.Prelude.{◌≡◌, ◌≢◌, ℕ, ◌*◌, ◌+◌, ◌<◌, ◌≤◌, ◌++◌, ◌∷◌, [], Contains, length, slice_get, Some, All, IfOk, IfSome, OnOk, OnErr};
ghost use Rattle.std.specs.Bool.{OnTrue, OnFalse};
ghost use Rattle.std.specs.List.Sorted.{IsStrictlyIncreasing};
ghost use Rattle.sat_watch.specs.Watching.{slots_at, IsKeptBut, IsPassed, IsPaired};

use crate::pair::Pair;
use crate::watch_list::WatchList;
use ja_base::{Lit, Memory};
use std::alloc::Global;
use std::marker::Model;

/// By literal the slots of the clauses that it watches, and by slot the two literals that watch its clause.
#[derive(Debug, Drop)]
pub(crate) struct Watches {
    lists: Vec<WatchList>,
    pairs: Vec<Pair>,
    alloc: Global,
}

impl Model for Watches {
    ghost use Rattle.sat_watch.specs.Watching.{Watching};

    ghost Value = { Watching };

    ghost view = { λ a. record { lists = a.lists.items; pairs = a.pairs.items } };
}

impl Watches {
    /// A list for each literal, with nothing in it.
    pub(crate) fn new(alloc: Global, vars: u32) -> Result<Watches, Memory>
        ensures { IfOk result (λ watches. length watches.lists ≡ 2 * vars) }
    {
        let mut watches = Watches {
            lists: Vec::new(alloc),
            pairs: Vec::new(alloc),
            alloc,
        };
        for _ in 0..vars {
            watches.fresh()?;
            watches.fresh()?;
        }
        Ok(watches)
    }

    /// The list of the next literal, which is empty.
    pub(crate) fn fresh(&mut self) -> Result<(), Memory>
        ensures ok { OnOk result (self.new
            ≡ record { lists = self.old.lists ++ [] ∷ []; pairs = self.old.pairs }) }
        ensures err { OnErr result (self.new ≡ self.old) }
    {
        self.lists.push(WatchList::new(self.alloc))?;
        Ok(())
    }

    /// How many clauses the literal watches.
    pub(crate) fn count(&self, lit: Lit) -> u32
        requires { lit < length self.now.lists }
        ensures { result ≡ length (slots_at self.now lit) }
    {
        self.lists[lit.number() as usize].len()
    }

    pub(crate) fn slot(&self, lit: Lit, at: u32) -> u32
        requires lit { lit < length self.now.lists }
        requires at { at < length (slots_at self.now lit) }
        ensures { slice_get (slots_at self.now lit) at ≡ Some result }
    {
        self.lists[lit.number() as usize].get(at)
    }

    /// Where a slot stands in the list of a literal.
    pub(crate) fn place_of(&self, lit: Lit, slot: u32) -> Option<u32>
        requires { lit < length self.now.lists }
        ensures within { IfSome result (λ at. at < length (slots_at self.now lit)) }
        ensures is { IfSome result (λ at. slice_get (slots_at self.now lit) at ≡ Some slot) }
    {
        self.lists[lit.number() as usize].place_of(slot)
    }

    pub(crate) fn pair(&self, slot: u32) -> Pair
        requires { slot < length self.now.pairs }
        ensures { slice_get self.now.pairs slot ≡ Some result }
    {
        self.pairs[slot as usize]
    }

    /// Another literal watches the clause of this slot in place of one in whose list it stands at this place, if there is room.
    pub(crate) fn pass(&mut self, lit: Lit, at: u32, slot: u32, other: Lit, to: Lit) -> bool
        requires lit { lit < length self.old.lists }
        requires to { to < length self.old.lists }
        requires apart { to ≢ lit }
        requires at { at < length (slots_at self.old lit) }
        requires is { slice_get (slots_at self.old lit) at ≡ Some slot }
        requires slot { slot < length self.old.pairs }
        ensures passed { OnTrue result (IsPassed self.old lit at slot other to self.new) }
        ensures full { OnFalse result (self.new ≡ self.old) }
    {
        if !self.lists[to.number() as usize].put(slot) {
            return false;
        }
        self.lists[lit.number() as usize].take_off(at);
        self.pairs[slot as usize] = Pair {
            one: other,
            two: to,
        };
        true
    }

    /// Room for one more clause in the lists of these literals.
    fn widen(&mut self, lits: &[Lit]) -> Result<(), Memory>
        requires { All (λ l. l < length self.old.lists) lits.now }
        ensures { self.new ≡ self.old }
    {
        for lit in lits {
            self.lists[lit.number() as usize].widen()?;
        }
        Ok(())
    }

    /// A clause of these literals went.
    fn narrow(&mut self, lits: &[Lit])
        requires { All (λ l. l < length self.old.lists) lits.now }
        ensures { self.new ≡ self.old }
    {
        for lit in lits {
            self.lists[lit.number() as usize].narrow();
        }
    }

    /// These two literals are to watch the clause of this slot.
    fn couple(&mut self, slot: u32, one: Lit, two: Lit) -> Result<(), Memory>
        requires { slot ≤ length self.old.pairs }
        ensures but { IsKeptBut slot self.old self.new }
        ensures is { OnOk result
            (slice_get self.new.pairs slot ≡ Some (record { one = one; two = two })) }
        ensures lists { self.new.lists ≡ self.old.lists }
    {
        let pair = Pair { one, two };
        if (slot as usize) < self.pairs.len() {
            self.pairs[slot as usize] = pair;
            return Ok(());
        }
        self.pairs.push(pair)?;
        Ok(())
    }

    /// The slot comes into the list of this literal.
    fn list_in(&mut self, lit: Lit, slot: u32) -> Result<(), Memory>
        requires { lit < length self.old.lists }
        ensures but { IsKeptBut slot self.old self.new }
        ensures has { OnOk result (Contains (slots_at self.new lit) slot) }
        ensures stays { (m : ℕ) → Contains (slots_at self.old m) slot
            → Contains (slots_at self.new m) slot }
        ensures pairs { self.new.pairs ≡ self.old.pairs }
    {
        if self.lists[lit.number() as usize].put(slot) {
            return Ok(());
        }
        Err(Memory)
    }

    /// The two literals watch the clause of this slot.
    fn watch(&mut self, slot: u32, one: Lit, two: Lit) -> Result<(), Memory>
        requires one { one < length self.old.lists }
        requires two { two < length self.old.lists }
        requires slot { slot ≤ length self.old.pairs }
        ensures but { IsKeptBut slot self.old self.new }
        ensures is { OnOk result
            (slice_get self.new.pairs slot ≡ Some (record { one = one; two = two })) }
        ensures one { OnOk result (Contains (slots_at self.new one) slot) }
        ensures two { OnOk result (Contains (slots_at self.new two) slot) }
    {
        self.couple(slot, one, two)?;
        self.list_in(one, slot)?;
        self.list_in(two, slot)?;
        Ok(())
    }

    /// Two of these literals watch the clause of this slot, if there are two. Where there is no memory one of them may.
    pub(crate) fn enter(&mut self, slot: u32, lits: &[Lit]) -> Result<(), Memory>
        requires lits { All (λ l. l < length self.old.lists) lits.now }
        requires ascends { IsStrictlyIncreasing lits.now }
        requires slot { slot ≤ length self.old.pairs }
        ensures but { IsKeptBut slot self.old self.new }
        ensures long { OnOk result (slot < length self.new.pairs) }
        ensures paired { OnOk result (2 ≤ length lits.now → IsPaired self.new slot lits.now) }
    {
        self.widen(lits)?;
        if lits.len() < 2 {
            self.couple(slot, Lit(0), Lit(0))?;
            return Ok(());
        }
        self.watch(slot, lits[0], lits[1])?;
        Ok(())
    }

    /// The slot leaves the list of this literal, if there is one and it stands there.
    fn unlist(&mut self, lit: Lit, slot: u32)
        ensures { IsKeptBut slot self.old self.new }
    {
        if lit.number() as usize >= self.lists.len() {
            return;
        }
        if let Some(at) = self.place_of(lit, slot) {
            self.lists[lit.number() as usize].take_off(at);
        }
    }

    /// No literal watches the clause of this slot any longer, which has these.
    pub(crate) fn leave(&mut self, slot: u32, lits: &[Lit])
        requires lits { All (λ l. l < length self.old.lists) lits.now }
        requires slot { slot < length self.old.pairs }
        ensures { IsKeptBut slot self.old self.new }
    {
        self.narrow(lits);
        let pair = self.pair(slot);
        self.unlist(pair.one, slot);
        self.unlist(pair.two, slot);
    }
}
