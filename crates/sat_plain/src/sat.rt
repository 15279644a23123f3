//! What a solver is.

ghost use Rattle.std.specs.Prelude.{◌≡◌, ℕ, ◌+◌, ◌<◌, ◌^◌, List, [], ◌∷◌, ◌++◌, length, option_copied, IfOk, OnOk, OnErr};
ghost use Rattle.ja_base.specs.Clauses.{IsBelow};
ghost use Rattle.ja_outside.specs.Flags.{IsPolled, IsFoundRaised};
ghost use Rattle.sat_plain.specs.Answer.{clauses_of, ExtraIsBelow, IsAnswer, OnStopped};
ghost use Rattle.sat_plain.specs.Ticks.{TicksAtMost, IsLater, IsTicked};

use crate::answer::SatAnswer;
use ja_base::{Clause, Lit, Memory, Meter, Var};
use ja_outside::Flag;
use std::alloc::Global;

/// A solver of clauses that logs its refutations. It has variables, numbered from 0, and added clauses; between queries it
/// may keep whatever helps it, as long as these two stay.
pub trait Sat: Sized + Drop {
    /// How many variables it has.
    ghost count: { Self → ℕ };

    /// The added clauses, in order.
    ghost added: { Self → List (List ℕ) };

    fn make(alloc: Global, vars: u32) -> Result<Self, Memory>
        ensures count { IfOk result (λ solver. count solver ≡ vars) }
        ensures added { IfOk result (λ solver. added solver ≡ []) };

    /// One more variable: the least that it does not have yet.
    fn fresh(&mut self) -> Result<Var, Memory>
        ensures var { IfOk result (λ var. var ≡ count self.old) }
        ensures small { IfOk result (λ var. var < 2 ^ 31) }
        ensures ok { OnOk result (count self.new ≡ count self.old + 1) }
        ensures err { OnErr result (count self.new ≡ count self.old) }
        ensures added { added self.new ≡ added self.old };

    /// Adds a clause, and tells its number.
    fn add(&mut self, alloc: Global, clause: &Clause) -> Result<u32, Memory>
        requires { IsBelow (count self.old) clause.now }
        ensures count { count self.new ≡ count self.old }
        ensures number { IfOk result (λ number. number ≡ length (added self.old)) }
        ensures ok { OnOk result (added self.new ≡ added self.old ++ clause.now ∷ []) }
        ensures err { OnErr result (added self.new ≡ added self.old) };

    /// Whether some row meets the added clauses, the extra one and the literals of `under`. A unit is ticked when the query
    /// begins and at each conflict, and the flag is polled behind each unit.
    fn solve<F: Flag>(
        &mut self,
        alloc: Global,
        under: &[Lit],
        extra: Option<&Clause>,
        meter: &mut Meter,
        flag: &mut F,
    ) -> SatAnswer
        requires under { IsBelow (count self.old) under.now }
        requires extra { ExtraIsBelow (count self.old) (option_copied extra) }
        ensures count { count self.new ≡ count self.old }
        ensures added { added self.new ≡ added self.old }
        ensures answer { IsAnswer (count self.old)
            (clauses_of (added self.old) (option_copied extra.entry)) under.now result }
        ensures ticked { IsTicked meter.old meter.new result }
        ensures later { IsLater meter.old meter.new }
        ensures bounded { TicksAtMost meter.old meter.new (1 + 3 ^ count self.old) }
        ensures stopped { OnStopped result
            (IsFoundRaised F.may_rise F.raised flag.old flag.new) }
        ensures flag { IsPolled F.may_rise F.raised flag.old flag.new };
}
