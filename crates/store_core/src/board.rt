//! The board: its list, marks and failures are those of its journal.

ghost use Rattle.std.specs.Prelude.{◌≡◌, ◌<◌, [], length, Some, slice_get, IfOk};
ghost use Rattle.ja_base.specs.Circuit.{Problem};
ghost use Rattle.store_core.specs.Steps.{opened, mark_of};
ghost use Rattle.store_core.specs.History.{IsLegalHistory, board_after};
ghost use Rattle.store_core.specs.Boards.{IsBoard, Opens, shown};

use crate::journal::{Journal, Opening};
use crate::mark::Mark;
use ja_base::{ClosedSet, Items, Memory, Shown};
use std::alloc::Global;
use std::marker::Model;

/// One closed list, a mark or none for each property, the failures in the order of settling, and the journal.
#[derive(Drop)]
pub struct Board<C: ClosedSet, V: Shown> {
    pub(crate) opening: Opening,
    pub(crate) place: u32,
    pub(crate) list: C,
    pub(crate) marks: Vec<Option<Mark>>,
    pub(crate) cancel: Option<u32>,
    pub(crate) failures: Items<V>,
    pub(crate) journal: Journal,
}

impl<C: ClosedSet, V: Shown> Model for Board<C, V> {
    ghost use Rattle.store_core.specs.Boards.{BoardValue, IsBoard, shown};

    ghost Value = { BoardValue C V };

    ghost view = { λ b. record {
      opening = b.opening;
      state = record {
        place = b.place;
        clauses = C.clauses b.list;
        marks = b.marks.items;
        cancel = b.cancel;
      };
      list = b.list;
      failures = b.failures;
      journal = b.journal;
    } };

    ghost invariant = { λ b. IsBoard C.covers C.bound (C.task b.list) b.opening
        (record {
          place = b.place;
          clauses = C.clauses b.list;
          marks = b.marks.items;
          cancel = b.cancel;
        })
        (shown V.property V.stimulus b.failures) b.journal };
}

impl<C: ClosedSet, V: Shown> Board<C, V> {
    pub fn new(alloc: Global, opening: Opening, list: C) -> Result<Board<C, V>, Memory>
        requires empty { C.clauses list ≡ [] }
        requires opens { Opens (C.task list) opening }
        ensures board { IfOk result (λ board. board ≡ record {
          opening = opening;
          state = opened opening;
          list = list;
          failures = [];
          journal = [];
        }) }
    {
        let marks = vec![in alloc; None; opening.assumed.len() as usize]?;
        Ok(Board {
            opening,
            place: 0,
            list,
            marks,
            cancel: None,
            failures: Items::new(alloc),
            journal: Journal::new(alloc),
        })
    }

    pub fn opening(&self) -> &Opening
        ensures { result.now ≡ self.now.opening }
    {
        &self.opening
    }

    /// The closed list as it is now.
    pub fn list(&self) -> &C
        ensures value { result.now ≡ self.now.list }
        ensures clauses { C.clauses self.now.list ≡ self.now.state.clauses }
        ensures sound { IsBoard C.covers C.bound (C.task self.now.list) self.now.opening
            self.now.state
            (shown V.property V.stimulus self.now.failures) self.now.journal }
    {
        &self.list
    }

    /// The mark of a property, if it has one.
    pub fn mark(&self, prop: u32) -> Option<Mark>
        requires { prop < length self.now.opening.assumed }
        ensures { result ≡ mark_of self.now.state.marks prop }
    {
        self.marks[prop as usize]
    }

    /// How many failures there are.
    pub fn failures(&self) -> u32
        ensures { result ≡ length self.now.failures }
    {
        self.failures.len()
    }

    /// The failures stand in the order in which they were settled.
    pub fn failure(&self, at: u32) -> &V
        requires { at < length self.now.failures }
        ensures { slice_get self.now.failures at ≡ Some result.now }
    {
        self.failures.get(at)
    }

    pub fn journal(&self) -> &Journal
        ensures value { result.now ≡ self.now.journal }
        ensures legal { IsLegalHistory self.now.opening self.now.journal }
        ensures state { board_after self.now.opening self.now.journal ≡ self.now.state }
    {
        &self.journal
    }
}
