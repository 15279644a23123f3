//! A Cancel, and properties that are given up behind it.

ghost use Rattle.std.specs.Prelude.{◌≡◌, ◌<◌, ◌&&◌, length, is_none, is_some, IfOk, OnOk, OnErr};
ghost use Rattle.store_core.specs.declared.journal.Event.TheVariants.{Cancel, GiveUp};
ghost use Rattle.store_core.specs.Steps.{mark_of, can_cancel, give_up_reply, reply_to};
ghost use Rattle.store_core.specs.Boards.{Did};

use crate::board::Board;
use crate::journal::{Entry, Event, Reply};
use crate::mark::Mark;
use ja_base::{ClosedSet, Memory, Shown};

impl<C: ClosedSet, V: Shown> Board<C, V> {
    fn can_cancel(&self, prop: u32) -> bool
        requires { prop < length self.now.opening.assumed }
        ensures { result ≡ can_cancel self.now.opening self.now.state prop }
    {
        self.opening.fail_fast
            && self.opening.assumed.get(prop)
            && matches!(self.marks[prop as usize], Some(Mark::Fails))
            && self.cancel.is_none()
    }

    /// The first time under fail-fast that it is asked for an assumed property that fails, a Cancel stands from then on.
    pub fn cancel(&mut self, seat: u32, prop: u32) -> Result<Reply, Memory>
        requires { prop < length self.old.opening.assumed }
        ensures err { OnErr result (self.new ≡ self.old) }
        ensures did { OnOk result (Did C.task self.old self.new seat (Cancel prop)) }
        ensures failures { OnOk result (self.new.failures ≡ self.old.failures) }
        ensures reply { IfOk result (λ r. r ≡ reply_to self.old.opening self.old.state
            (Cancel prop)) }
    {
        let event = Event::Cancel { prop };
        if self.can_cancel(prop) {
            let reply = Reply::Cancelled;
            self.journal.push(Entry { seat, event, reply })?;
            self.cancel = Some(prop);
            return Ok(reply);
        }
        let reply = Reply::NotNow;
        self.journal.push(Entry { seat, event, reply })?;
        Ok(reply)
    }

    fn give_up_reply(&self, prop: u32) -> Reply
        requires { prop < length self.now.opening.assumed }
        ensures { result ≡ give_up_reply (mark_of self.now.state.marks prop) self.now.state.cancel }
    {
        match (self.marks[prop as usize], self.cancel) {
            (Some(mark), _) => Reply::Had { mark },
            (None, None) => Reply::GoOn,
            (None, Some(_)) => Reply::GaveUp,
        }
    }

    fn gives_up(&self, prop: u32) -> bool
        requires { prop < length self.now.opening.assumed }
        ensures { result ≡ (is_none (mark_of self.now.state.marks prop)
            && is_some self.now.state.cancel) }
    {
        self.marks[prop as usize].is_none() && self.cancel.is_some()
    }

    /// Where a Cancel stands, a property without a mark is left unknown.
    pub fn give_up(&mut self, seat: u32, prop: u32) -> Result<Reply, Memory>
        requires { prop < length self.old.opening.assumed }
        ensures err { OnErr result (self.new ≡ self.old) }
        ensures did { OnOk result (Did C.task self.old self.new seat (GiveUp prop)) }
        ensures failures { OnOk result (self.new.failures ≡ self.old.failures) }
        ensures reply { IfOk result (λ r. r ≡ reply_to self.old.opening self.old.state
            (GiveUp prop)) }
    {
        let gives_up = self.gives_up(prop);
        let (event, reply) = (Event::GiveUp { prop }, self.give_up_reply(prop));
        self.journal.push(Entry { seat, event, reply })?;
        if gives_up {
            self.marks[prop as usize] = Some(Mark::Cancelled);
        }
        Ok(reply)
    }
}
