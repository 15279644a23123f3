//! What a list of clauses is that proofs of properties stand on.

ghost use Rattle.std.specs.Prelude.{◌≡◌, ℕ, ◌<◌, List, length, Some, slice_get, IfOk, OnOk, OnErr, All, Contains};
ghost use Rattle.ja_base.specs.Circuit.{Problem};
ghost use Rattle.ja_base.specs.ClauseSets.{AreDistinct, joined, fresh};

use crate::clause::{Clause, ClauseList};
use crate::memory::Memory;
use std::alloc::Global;

/// A list of clauses, none twice, that is closed for its task: a list of this type stands for the proof of it. Which
/// properties it covers is told by the task and the clauses alone.
pub trait ClosedSet: Sized + Drop {
    /// The clauses, in order.
    ghost clauses: { Self → List (List ℕ) };

    /// The task that they are closed for.
    ghost task: { Self → Problem };

    /// A budget that suffices for each property of a task.
    ghost bound: { Problem → ℕ };

    /// Clauses that are closed for the task cover the property.
    ghost covers: { Problem → List (List ℕ) → ℕ → Type 0 };

    fn len(&self) -> u32
        ensures value { result ≡ length (clauses self.now) }
        ensures distinct { AreDistinct (clauses self.now) };

    fn clause(&self, at: u32) -> &Clause
        requires { at < length (clauses self.now) }
        ensures { slice_get (clauses self.now) at ≡ Some result.now };

    /// The clauses of this list, and behind them those of the other that this one does not have.
    fn join(&self, alloc: Global, other: &Self) -> Result<Self, Memory>
        requires { task self.now ≡ task other.now }
        ensures clauses { IfOk result
            (λ both. clauses both ≡ joined (clauses self.now) (clauses other.now)) }
        ensures task { IfOk result (λ both. task both ≡ task self.now) };

    /// The same in place: the clauses of the other list that this one does not have come behind its own, which are not
    /// copied. Tells which these are.
    fn extend(&mut self, alloc: Global, other: &Self) -> Result<ClauseList, Memory>
        requires { task self.old ≡ task other.now }
        ensures clauses { OnOk result
            (clauses self.new ≡ joined (clauses self.old) (clauses other.now)) }
        ensures fresh { IfOk result
            (λ added. added ≡ fresh (clauses self.old) (clauses other.now)) }
        ensures err { OnErr result (self.new ≡ self.old) }
        ensures task { task self.new ≡ task self.old };

    fn copy(&self, alloc: Global) -> Result<Self, Memory>
        ensures clauses { IfOk result (λ copy. clauses copy ≡ clauses self.now) }
        ensures task { IfOk result (λ copy. task copy ≡ task self.now) };

    /// What a list covers, each list covers that has all its clauses.
    ghost grows: { (t : Problem) (few many : List (List ℕ)) (p : ℕ) → covers t few p
        → All (Contains many) few → covers t many p };
}
