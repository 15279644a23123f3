//! What lies under the lock, and what an event tells of it.

ghost use Rattle.std.specs.Prelude.{◌≡◌, ◌<◌, length, Some, IfOk};
ghost use Rattle.std.specs.Coded.{Coded-set};
ghost use Rattle.ja_base.specs.Codes.{problem_code};
ghost use Rattle.store_core.specs.Judged.{view_of, IfJob, IfProved, IfFails, IfSpent};
ghost use Rattle.desk.specs.Replies.{IsSettleReply, IsCancelReply, IsGiveUpReply};

use ja_base::{ClosedSet, Memory, Shown};
use std::alloc::Global;
use std::marker::PhantomData;
use store_core::{Board, Drawn, Judged, Naming, Reply};

/// A board whose opening and task are those that `N` names, each time that the lock is taken.
#[derive(Drop)]
pub(crate) struct Locked<C: ClosedSet, V: Shown, N: Naming> {
    pub(crate) board: Board<C, V>,
    pub(crate) of: PhantomData<N>,
    pub(crate) ghost opening: { board.opening ≡ N.opening },
    pub(crate) ghost task: { C.task board.list ≡ N.task } by { Coded-set problem_code (C.task board.list) N.task },
}

impl<C: ClosedSet, V: Shown, N: Naming> Locked<C, V, N> {
    pub(crate) fn draw(&mut self, alloc: Global, seat: u32) -> Result<Drawn<C>, Memory>
        ensures view { IfOk result (λ d. C.task (view_of d) ≡ N.task) }
        ensures within { IfOk result (λ d. IfJob d (λ p. p < length N.opening.assumed)) }
    {
        let drawn = self.board.draw(alloc, seat)?;
        Ok(drawn)
    }

    pub(crate) fn import(&mut self, alloc: Global, seat: u32) -> Result<C, Memory>
        ensures view { IfOk result (λ list. C.task list ≡ N.task) }
    {
        let view = self.board.import(alloc, seat)?;
        Ok(view)
    }

    pub(crate) fn publish(&mut self, alloc: Global, seat: u32, part: &C) -> Result<u32, Memory>
        requires { C.task part.now ≡ N.task }
    {
        let upto = self.board.publish(alloc, seat, part)?;
        Ok(upto)
    }

    pub(crate) fn settle(
        &mut self,
        alloc: Global,
        seat: u32,
        prop: u32,
        judged: Judged<C, V>,
    ) -> Result<Reply, Memory>
        requires within { prop < length N.opening.assumed }
        requires proved { IfProved judged (λ list. (C.task list ≡ N.task)
            × C.covers (C.task list) (C.clauses list) prop) }
        requires fails { IfFails judged (λ v. (V.task v ≡ N.task) × (V.property v ≡ prop)) }
        requires spent { IfSpent judged (λ n. N.opening.limit ≡ Some n) }
        ensures reply { IfOk result IsSettleReply }
    {
        let reply = self.board.settle(alloc, seat, prop, judged)?;
        Ok(reply)
    }

    pub(crate) fn cancel(&mut self, seat: u32, prop: u32) -> Result<Reply, Memory>
        requires { prop < length N.opening.assumed }
        ensures reply { IfOk result (IsCancelReply N.opening prop) }
    {
        let reply = self.board.cancel(seat, prop)?;
        Ok(reply)
    }

    pub(crate) fn give_up(&mut self, seat: u32, prop: u32) -> Result<Reply, Memory>
        requires { prop < length N.opening.assumed }
        ensures reply { IfOk result IsGiveUpReply }
    {
        let reply = self.board.give_up(seat, prop)?;
        Ok(reply)
    }
}
