//! Judgements of properties.

ghost use Rattle.std.specs.Prelude.{◌≡◌, ◌<◌, ◌∷◌, ◌++◌, [], List, ℕ, length, Some, None, IfOk, OnOk, OnErr};
ghost use Rattle.store_core.specs.declared.journal.Event.TheVariants.{Settle};
ghost use Rattle.store_core.specs.declared.journal.Reply.TheVariants as reply;
ghost use Rattle.store_core.specs.declared.mark.Mark.TheVariants as mark;
ghost use Rattle.store_core.specs.Steps.{mark_of, kept, reply_to};
ghost use Rattle.store_core.specs.Boards.{Did};
ghost use Rattle.store_core.specs.Judged.{IfProved, IfFails, IfSpent, settle_event, kept_failure, offered};

use crate::answers::Judged;
use crate::board::Board;
use crate::journal::{Entry, Event, Reply};
use crate::mark::Mark;
use crate::publish::{fill, grow};
use ja_base::{ClauseList, ClosedSet, Memory, Shown, SpentNote};
use std::alloc::Global;

/// The mark that is offered by a judgement.
fn offered<C, V>(judged: &Judged<C, V>) -> Mark
    ensures { result ≡ offered judged.now }
{
    match judged {
        Judged::Proved(_) => Mark::Proved,
        Judged::Fails(_) => Mark::Fails,
        Judged::Spent(note) => Mark::Budget(note.units()),
    }
}

impl<C: ClosedSet, V: Shown> Board<C, V> {
    /// A mark that stands stays.
    fn keep_mark(
        &mut self,
        alloc: Global,
        seat: u32,
        prop: u32,
        had: Mark,
        mark: Mark,
    ) -> Result<Reply, Memory>
        requires within { prop < length self.old.opening.assumed }
        requires had { mark_of self.old.state.marks prop ≡ Some had }
        ensures err { OnErr result (self.new ≡ self.old) }
        ensures did { OnOk result ((added : List (List ℕ))
            → Did C.task self.old self.new seat (Settle prop mark added)) }
        ensures failures { OnOk result (self.new.failures ≡ self.old.failures) }
        ensures reply { IfOk result (λ r. r ≡ reply.Had had) }
    {
        let added = ClauseList::new(alloc);
        let (event, reply) = (
            Event::Settle { prop, mark, added },
            Reply::Had { mark: had },
        );
        self.journal.push(Entry { seat, event, reply })?;
        Ok(reply)
    }

    fn settle_proof(
        &mut self,
        alloc: Global,
        seat: u32,
        prop: u32,
        list: &C,
    ) -> Result<Reply, Memory>
        requires within { prop < length self.old.opening.assumed }
        requires free { mark_of self.old.state.marks prop ≡ None }
        requires task { C.task list.now ≡ C.task self.old.list }
        requires covers { C.covers (C.task list.now) (C.clauses list.now) prop }
        ensures err { OnErr result (self.new ≡ self.old) }
        ensures did { OnOk result
            (Did C.task self.old self.new seat (Settle prop mark.Proved (C.clauses list.now))) }
        ensures failures { OnOk result (self.new.failures ≡ self.old.failures) }
        ensures reply { IfOk result (λ r. r ≡ reply.Settled (length self.new.state.clauses)) }
    {
        let added = grow(alloc, &mut self.list, &mut self.journal, list)?;
        let upto = self.list.len();
        let mark = Mark::Proved;
        let (event, reply) = (Event::Settle { prop, mark, added }, Reply::Settled { upto });
        fill(&mut self.journal, Entry { seat, event, reply });
        self.marks[prop as usize] = Some(mark);
        Ok(reply)
    }

    fn settle_spent(
        &mut self,
        alloc: Global,
        seat: u32,
        prop: u32,
        note: SpentNote,
    ) -> Result<Reply, Memory>
        requires within { prop < length self.old.opening.assumed }
        requires free { mark_of self.old.state.marks prop ≡ None }
        requires limit { self.old.opening.limit ≡ Some note }
        ensures err { OnErr result (self.new ≡ self.old) }
        ensures did { OnOk result
            (Did C.task self.old self.new seat (Settle prop (mark.Budget note) [])) }
        ensures failures { OnOk result (self.new.failures ≡ self.old.failures) }
        ensures reply { IfOk result (λ r. r ≡ reply.Settled (length self.new.state.clauses)) }
    {
        let mark = Mark::Budget(note.units());
        let (added, upto) = (ClauseList::new(alloc), self.list.len());
        let (event, reply) = (Event::Settle { prop, mark, added }, Reply::Settled { upto });
        self.journal.push(Entry { seat, event, reply })?;
        self.marks[prop as usize] = Some(mark);
        Ok(reply)
    }

    fn settle_failure(
        &mut self,
        alloc: Global,
        seat: u32,
        prop: u32,
        failure: V,
    ) -> Result<Reply, Memory>
        requires within { prop < length self.old.opening.assumed }
        requires free { mark_of self.old.state.marks prop ≡ None }
        requires task { V.task failure ≡ C.task self.old.list }
        requires property { V.property failure ≡ prop }
        ensures err { OnErr result (self.new ≡ self.old) }
        ensures did { OnOk result (Did C.task self.old self.new seat (Settle prop mark.Fails [])) }
        ensures failures { OnOk result (self.new.failures ≡ self.old.failures ++ failure ∷ []) }
        ensures reply { IfOk result (λ r. r ≡ reply.Settled (length self.new.state.clauses)) }
    {
        let prop = failure.prop();
        let mark = Mark::Fails;
        let (added, upto) = (ClauseList::new(alloc), self.list.len());
        let (event, reply) = (Event::Settle { prop, mark, added }, Reply::Settled { upto });
        self.failures.push(failure)?;
        if let Err(memory) = self.journal.push(Entry { seat, event, reply }) {
            self.failures.pop();
            return Err(memory);
        }
        self.marks[prop as usize] = Some(mark);
        Ok(reply)
    }

    /// The mark, where the property has none: a proof's clauses come behind those that are there, a failure is kept.
    pub fn settle(
        &mut self,
        alloc: Global,
        seat: u32,
        prop: u32,
        judged: Judged<C, V>,
    ) -> Result<Reply, Memory>
        requires within { prop < length self.old.opening.assumed }
        requires proved { IfProved judged (λ list. (C.task list ≡ C.task self.old.list)
            × C.covers (C.task list) (C.clauses list) prop) }
        requires fails { IfFails judged (λ v. (V.task v ≡ C.task self.old.list)
            × (V.property v ≡ prop)) }
        requires spent { IfSpent judged (λ n. self.old.opening.limit ≡ Some n) }
        ensures err { OnErr result (self.new ≡ self.old) }
        ensures did { OnOk result
            (Did C.task self.old self.new seat (settle_event C.clauses prop judged)) }
        ensures failures { OnOk result (self.new.failures
            ≡ self.old.failures ++ kept_failure (mark_of self.old.state.marks prop) judged) }
        ensures reply { IfOk result (λ r. r ≡ reply_to self.old.opening self.old.state
            (kept self.old.state (settle_event C.clauses prop judged))) }
    {
        if let Some(had) = self.mark(prop) {
            let mark = offered(&judged);
            return self.keep_mark(alloc, seat, prop, had, mark);
        }
        match judged {
            Judged::Proved(list) => self.settle_proof(alloc, seat, prop, &list),
            Judged::Fails(failure) => self.settle_failure(alloc, seat, prop, failure),
            Judged::Spent(note) => self.settle_spent(alloc, seat, prop, note),
        }
    }
}
