//! The levels with their kept clauses.

ghost use Rattle.std.specs.Prelude.{◌≡◌, ◌+◌, ◌<◌, ◌≤◌, nat_eq, [], Some, length, slice_get, OnOk, OnErr, IfSome};
ghost use Rattle.std.specs.List.{list_any};
ghost use Rattle.std.specs.Option.{IfNone};
ghost use Rattle.ic3_frames.specs.Levels.{AreLevels, Entry, HasOwnBelow, IfEntry, IsLeastFixed, added, is_blocked, moved};

use crate::kept::Kept;
use crate::mark::mark_of;
use ja_base::{Clause, Memory};
use std::alloc::Global;
use std::marker::Model;

/// Clauses by place, each with a level from 1 to the top: it stands at that level and at each lower one.
#[derive(Debug, Drop)]
pub struct Frames {
    top: u32,
    kept: Vec<Kept>,
}

impl Model for Frames {
    ghost use Rattle.std.specs.Prelude.{length, ◌<◌, ◌^◌};
    ghost use Rattle.ic3_frames.specs.Levels.{Levels, AreLevels};

    ghost Value = { Levels };

    ghost view = { λ a. record { top = a.top; kept = a.kept.items } };

    ghost invariant = { λ a. record {
      levels : AreLevels (record { top = a.top; kept = a.kept.items });
      short : length a.kept.items < 2 ^ 32;
    } };
}

impl Frames {
    /// No clause, and the top 0.
    pub fn new(alloc: Global) -> Frames
        ensures { result ≡ record { top = 0; kept = [] } }
    {
        Frames {
            top: 0,
            kept: Vec::new(alloc),
        }
    }

    pub fn top(&self) -> u32
        ensures { result ≡ self.now.top }
    {
        self.top
    }

    /// Tells that each kept clause stands at a level from 1 to the top.
    pub fn are_levels(&self)
        ensures { AreLevels self.now }
    {
        let _kept = self.kept.len();
    }

    /// One more level, at which no clause stands.
    pub fn grow(&mut self) -> Result<(), Memory>
        ensures ok { OnOk result (self.new ≡ record { top = self.old.top + 1; kept = self.old.kept }) }
        ensures err { OnErr result (self.new ≡ self.old) }
    {
        if self.top == u32::MAX {
            return Err(Memory);
        }
        self.top += 1;
        Ok(())
    }

    /// The number of kept clauses.
    pub fn len(&self) -> u32
        ensures { result ≡ length self.now.kept }
    {
        self.kept.len() as u32
    }

    pub fn clause(&self, at: u32) -> &Clause
        requires { at < length self.now.kept }
        ensures { IfEntry self.now.kept at (λ e. e.clause ≡ result.now) }
    {
        self.kept[at as usize].clause()
    }

    /// The highest level at which the clause of this place stands.
    pub fn level(&self, at: u32) -> u32
        requires { at < length self.now.kept }
        ensures exact { IfEntry self.now.kept at (λ e. e.level ≡ result) }
        ensures low { 1 ≤ result }
        ensures high { result ≤ self.now.top }
    {
        self.kept[at as usize].level()
    }

    /// Drops each clause that the new one subsumes and that stands no higher, and puts the new one last.
    pub fn add(&mut self, clause: Clause, level: u32) -> Result<(), Memory>
        requires low { 1 ≤ level }
        requires high { level ≤ self.old.top }
        ensures kept { OnOk result (self.new.kept ≡ added clause level self.old.kept) }
        ensures top { self.new.top ≡ self.old.top }
        ensures err { OnErr result (self.new ≡ self.old) }
    {
        if self.len() == u32::MAX {
            return Err(Memory);
        }
        self.kept.reserve(1)?;
        let new = Kept::new(clause, level);
        self.kept.retain(|kept| !new.takes_place(kept));
        self.kept.push_reserved(new);
        Ok(())
    }

    /// Whether some clause that stands at the level subsumes this one.
    pub fn blocks(&self, level: u32, clause: &Clause) -> bool
        ensures { result ≡ is_blocked self.now.kept level clause.now }
    {
        let mark = mark_of(clause.lits());
        for kept in &self.kept {
            if kept.blocks(level, clause, mark) {
                return true;
            }
        }
        false
    }

    /// Moves the clause of this place to the level.
    pub fn push(&mut self, at: u32, level: u32)
        requires within { at < length self.old.kept }
        requires low { 1 ≤ level }
        requires high { level ≤ self.old.top }
        ensures kept { IfEntry self.old.kept at (λ e. self.new.kept ≡ moved self.old.kept at e level) }
        ensures top { self.new.top ≡ self.old.top }
    {
        self.kept[at as usize].move_to(level);
    }

    fn has_own(&self, level: u32) -> bool
        ensures { result ≡ list_any (λ (e : Entry). nat_eq e.level level) self.now.kept }
    {
        for kept in &self.kept {
            if kept.level() == level {
                return true;
            }
        }
        false
    }

    /// The least level from 1 to below the top that has the clauses of the one above it.
    pub fn fixed(&self) -> Option<u32>
        ensures found { IfSome result (IsLeastFixed self.now) }
        ensures none { IfNone result (HasOwnBelow self.now.kept self.now.top) }
    {
        for level in 1..self.top {
            if !self.has_own(level) {
                return Some(level);
            }
        }
        None
    }
}
