//! What is left of a board once it is closed.

ghost use Rattle.std.specs.Prelude.{◌≡◌};
ghost use Rattle.store_core.specs.Boards.{IsBoard, shown};

use crate::board::Board;
use crate::journal::{Journal, Opening};
use crate::mark::Mark;
use ja_base::{ClosedSet, Items, Shown};

/// The parts of a board, by value.
#[derive(Drop)]
pub struct Parts<C, V> {
    pub opening: Opening,
    pub list: C,
    /// A mark or none for each property.
    pub marks: Vec<Option<Mark>>,
    /// In the order in which they were settled.
    pub failures: Items<V>,
    pub journal: Journal,
}

impl<C: ClosedSet, V: Shown> Board<C, V> {
    /// Nothing is copied.
    pub fn into_parts(self) -> Parts<C, V>
        ensures opening { result.opening ≡ self.opening }
        ensures list { result.list ≡ self.list }
        ensures marks { result.marks.items ≡ self.state.marks }
        ensures failures { result.failures ≡ self.failures }
        ensures journal { result.journal ≡ self.journal }
        ensures clauses { C.clauses self.list ≡ self.state.clauses }
        ensures sound { IsBoard C.covers C.bound (C.task self.list) self.opening self.state
            (shown V.property V.stimulus self.failures) self.journal }
    {
        Parts {
            opening: self.opening,
            list: self.list,
            marks: self.marks,
            failures: self.failures,
            journal: self.journal,
        }
    }
}
