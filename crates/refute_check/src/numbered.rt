//! Clauses by number, each added or the clause of an accepted line.

ghost use Rattle.std.specs.Prelude.{◌≡◌, ◌+◌, ◌-◌, ◌^◌, ◌<◌, ◌≤◌, [], ◌∷◌, ◌++◌, length, take, slice_get, Some, IfOk, OnOk, OnErr};
ghost use Rattle.refute_check.specs.Checked.{Adds};
ghost use Rattle.std.specs.Option.{option_copied};

use ja_base::{Clause, Memory};
use std::alloc::Global;
use std::marker::Model;

/// At most 2^32 - 1 clauses, with the places of the added ones.
#[derive(Debug, Drop)]
pub struct Numbered {
    clauses: Vec<Clause>,
    added: Vec<u32>,
    kept: usize,
}

impl Model for Numbered {
    ghost use Rattle.std.specs.Prelude.{◌-◌, ◌<◌, ◌≤◌, ◌^◌, All, length, min, vec_capacity};
    ghost use Rattle.refute_check.specs.Checked.{Numbering, clauses_at};

    ghost Value = { Numbering };

    ghost view = { λ a. record {
      list = a.clauses.items;
      spare = min (vec_capacity a.clauses) 4294967295 - length a.clauses.items;
      added = clauses_at a.clauses.items a.added.items;
      kept = a.kept;
    } };

    ghost invariant = { λ a. (length a.clauses.items < 2 ^ 32) × (a.kept ≤ length a.clauses.items)
        × All (λ k. k < a.kept) a.added.items };
}

impl Numbered {
    pub fn new(alloc: Global) -> Numbered
        ensures { result ≡ record { list = []; spare = 0; added = []; kept = 0 } }
    {
        Numbered {
            clauses: Vec::new(alloc),
            added: Vec::new(alloc),
            kept: 0,
        }
    }

    pub fn len(&self) -> u32
        ensures { result ≡ length self.now.list }
    {
        self.clauses.len() as u32
    }

    pub fn get(&self, at: u32) -> Option<&Clause>
        ensures { option_copied result ≡ slice_get self.now.list at }
    {
        self.clauses.as_slice().get(at as usize)
    }

    /// The clause of this number.
    pub fn clause(&self, at: u32) -> &Clause
        requires { at < length self.now.list }
        ensures { slice_get self.now.list at ≡ Some result.now }
    {
        &self.clauses[at as usize]
    }

    pub fn as_slice(&self) -> &[Clause]
        ensures { result.now ≡ self.now.list }
    {
        self.clauses.as_slice()
    }

    /// The clause of an accepted line takes the next number.
    pub fn put(&mut self, clause: Clause)
        requires { 0 < self.old.spare }
        ensures { self.new ≡ record self.old {
          list = self.old.list ++ clause ∷ [];
          spare = self.old.spare - 1;
        } }
    {
        self.clauses.push_reserved(clause);
    }

    /// An added clause takes the next number.
    pub fn add(&mut self, clause: Clause) -> Result<u32, Memory>
        ensures number { IfOk result (λ n. n ≡ length self.old.list) }
        ensures ok { OnOk result (Adds self.old clause self.new) }
        ensures err { OnErr result (self.new ≡ self.old) }
    {
        let number = self.len();
        if number == u32::MAX {
            return Err(Memory);
        }
        self.added.reserve(1)?;
        self.clauses.reserve(1)?;
        self.clauses.push_reserved(clause);
        self.added.push_reserved(number);
        self.kept = self.clauses.len();
        Ok(number)
    }

    /// Makes room for so many more clauses.
    pub fn reserve(&mut self, lines: u32) -> Result<(), Memory>
        ensures ok { OnOk result (lines ≤ self.new.spare) }
        ensures same { self.new ≡ record self.old { spare = self.new.spare } }
        ensures room { self.old.spare ≤ self.new.spare }
        ensures err { OnErr result (self.new ≡ self.old) }
    {
        if lines > u32::MAX - self.len() {
            return Err(Memory);
        }
        self.clauses.reserve(lines as usize)?;
        Ok(())
    }

    /// Drops the lines that came after the last added clause.
    pub fn forget_lines(&mut self)
        ensures { self.new ≡ record self.old {
          list = take self.old.kept self.old.list;
          spare = self.old.spare + (length self.old.list - self.old.kept);
        } }
    {
        self.clauses.truncate(self.kept);
    }
}
