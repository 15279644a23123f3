//! The events. Each takes the lock for as long as the board's own call takes.

ghost use Rattle.std.specs.Prelude.{◌≡◌, ◌<◌, length, Some, IfOk};
ghost use Rattle.store_core.specs.Judged.{view_of, IfJob, IfProved, IfFails, IfSpent};
ghost use Rattle.desk.specs.Seats.{IsLater};
ghost use Rattle.desk.specs.Replies.{IsSettleReply, IsCancelReply, IsGiveUpReply};

use crate::front::Desk;
use crate::seat::Seat;
use ja_base::{ClosedSet, Memory, Shown};
use std::alloc::Global;
use std::sync::Wait;
use store_core::{Drawn, Judged, Naming, Reply};

impl<C: ClosedSet, V: Shown, N: Naming> Desk<C, V, N> {
    /// The next property of the plan, if there is one and no Cancel stands.
    pub fn draw<R: Wait>(
        &self,
        rt: &R,
        alloc: Global,
        seat: &mut Seat<N>,
    ) -> Result<Drawn<C>, Memory>
        ensures seat { IsLater seat.old seat.new }
        ensures view { IfOk result (λ d. C.task (view_of d) ≡ N.task) }
        ensures within { IfOk result (λ d. IfJob d (λ p. p < length N.opening.assumed)) }
    {
        self.board.lock(rt).draw(alloc, seat.number)
    }

    /// The list as it is now.
    pub fn import<R: Wait>(&self, rt: &R, alloc: Global, seat: &mut Seat<N>) -> Result<C, Memory>
        ensures seat { IsLater seat.old seat.new }
        ensures view { IfOk result (λ list. C.task list ≡ N.task) }
    {
        self.board.lock(rt).import(alloc, seat.number)
    }

    /// The clauses of the part that the list does not have come behind it. Tells how many clauses there are then.
    pub fn publish<R: Wait>(
        &self,
        rt: &R,
        alloc: Global,
        seat: &mut Seat<N>,
        part: &C,
    ) -> Result<u32, Memory>
        requires { C.task part.now ≡ N.task }
        ensures seat { IsLater seat.old seat.new }
    {
        self.board.lock(rt).publish(alloc, seat.number, part)
    }

    /// The mark, where the property has none: a proof's clauses come behind those that are there, a failure is kept.
    pub fn settle<R: Wait>(
        &self,
        rt: &R,
        alloc: Global,
        seat: &mut Seat<N>,
        prop: u32,
        judged: Judged<C, V>,
    ) -> Result<Reply, Memory>
        requires within { prop < length N.opening.assumed }
        requires proved { IfProved judged (λ list. (C.task list ≡ N.task)
            × C.covers (C.task list) (C.clauses list) prop) }
        requires fails { IfFails judged (λ v. (V.task v ≡ N.task) × (V.property v ≡ prop)) }
        requires spent { IfSpent judged (λ n. N.opening.limit ≡ Some n) }
        ensures seat { IsLater seat.old seat.new }
        ensures reply { IfOk result IsSettleReply }
    {
        self.board.lock(rt).settle(alloc, seat.number, prop, judged)
    }

    /// The first time under fail-fast that it is asked for an assumed property that fails, a Cancel stands from then on.
    pub fn cancel<R: Wait>(
        &self,
        rt: &R,
        _alloc: Global,
        seat: &mut Seat<N>,
        prop: u32,
    ) -> Result<Reply, Memory>
        requires { prop < length N.opening.assumed }
        ensures seat { IsLater seat.old seat.new }
        ensures reply { IfOk result (IsCancelReply N.opening prop) }
    {
        self.board.lock(rt).cancel(seat.number, prop)
    }

    /// Where a Cancel stands, a property without a mark is left unknown.
    pub fn give_up<R: Wait>(
        &self,
        rt: &R,
        _alloc: Global,
        seat: &mut Seat<N>,
        prop: u32,
    ) -> Result<Reply, Memory>
        requires { prop < length N.opening.assumed }
        ensures seat { IsLater seat.old seat.new }
        ensures reply { IfOk result IsGiveUpReply }
    {
        self.board.lock(rt).give_up(seat.number, prop)
    }
}
