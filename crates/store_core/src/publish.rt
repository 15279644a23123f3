//! Clauses that come behind those that are there.

ghost use Rattle.std.specs.Prelude.{◌≡◌, ◌<◌, ◌∷◌, ◌++◌, [], List, length, IfOk, OnOk, OnErr};
ghost use Rattle.ja_base.specs.ClauseSets.{joined, fresh};
ghost use Rattle.store_core.specs.declared.journal.Entry.{Entry};
ghost use Rattle.store_core.specs.declared.journal.Event.TheVariants.{Publish};
ghost use Rattle.store_core.specs.Boards.{Did, IsLonger};

use crate::board::Board;
use crate::journal::{Entry, Event, Journal, Reply};
use ja_base::{ClauseList, ClosedSet, Memory, Shown};
use std::alloc::Global;

/// The list grows in place. A place for an entry is taken first, so that nothing is to be undone once it has grown.
pub(crate) fn grow<C: ClosedSet>(
    alloc: Global,
    list: &mut C,
    journal: &mut Journal,
    part: &C,
) -> Result<ClauseList, Memory>
    requires task { C.task list.old ≡ C.task part.now }
    ensures clauses { OnOk result
        (C.clauses list.new ≡ joined (C.clauses list.old) (C.clauses part.now)) }
    ensures fresh { IfOk result (λ added. added ≡ fresh (C.clauses list.old) (C.clauses part.now)) }
    ensures task { C.task list.new ≡ C.task list.old }
    ensures place { OnOk result (IsLonger journal.old journal.new) }
    ensures list { OnErr result (list.new ≡ list.old) }
    ensures journal { OnErr result (journal.new ≡ journal.old) }
{
    let (event, reply) = (Event::Draw, Reply::NotNow);
    journal.push(Entry {
        seat: 0,
        event,
        reply,
    })?;
    let grown = list.extend(alloc, part);
    if grown.is_err() {
        journal.pop();
    }
    grown
}

/// Puts the entry in the place that was taken for it.
pub(crate) fn fill(journal: &mut Journal, entry: Entry)
    requires { 0 < length journal.old }
    ensures { (before : List Entry) → IsLonger before journal.old
        → journal.new ≡ before ++ entry ∷ [] }
{
    let last = journal.len() - 1;
    journal.set(last, entry);
}

impl<C: ClosedSet, V: Shown> Board<C, V> {
    /// The clauses of the part that the list does not have come behind it. Tells how many clauses there are then.
    pub fn publish(&mut self, alloc: Global, seat: u32, part: &C) -> Result<u32, Memory>
        requires { C.task part.now ≡ C.task self.old.list }
        ensures err { OnErr result (self.new ≡ self.old) }
        ensures did { OnOk result
            (Did C.task self.old self.new seat (Publish (C.clauses part.now))) }
        ensures failures { OnOk result (self.new.failures ≡ self.old.failures) }
        ensures upto { IfOk result (λ upto. upto ≡ length self.new.state.clauses) }
    {
        let added = grow(alloc, &mut self.list, &mut self.journal, part)?;
        let upto = self.list.len();
        let (event, reply) = (Event::Publish { added }, Reply::Added { upto });
        fill(&mut self.journal, Entry { seat, event, reply });
        Ok(upto)
    }
}
