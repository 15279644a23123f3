//! The plain solver.

ghost use Rattle.std.specs.Prelude.{◌≡◌, ◌+◌, ◌<◌, ◌^◌, [], ◌∷◌, ◌++◌, length, option_copied, IfOk, OnOk, OnErr};
ghost use Rattle.ja_base.specs.Clauses.{IsBelow};
ghost use Rattle.ja_outside.specs.Flags.{IsPolled, IsFoundRaised};
ghost use Rattle.sat_plain.specs.Answer.{clauses_of, ExtraIsBelow, IsAnswer, OnStopped, OnUnsat};
ghost use Rattle.sat_plain.specs.Ticks.{TicksAtMost, SpendsAtLeast, IsLater, IsTicked};

use crate::answer::SatAnswer;
use crate::ask::ask;
use crate::sat::Sat;
use crate::trail::MOST_VARS;
use ja_base::{Clause, Lit, Memory, Meter, Var};
use ja_outside::Flag;
use refute_check::Numbered;
use std::alloc::Global;
use std::marker::Model;

/// A solver that propagates by passes over all clauses and goes back to the last decision at each conflict. It keeps
/// nothing from query to query but the added clauses.
#[derive(Debug, Drop)]
pub struct PlainSat {
    vars: u32,
    clauses: Numbered,
}

impl Model for PlainSat {
    ghost use Rattle.sat_plain.specs.Solvers.{Solver, IsStore};

    ghost Value = { Solver };

    ghost view = { λ a. record { vars = a.vars; added = a.clauses.added } };

    ghost invariant = { λ a. IsStore a.vars a.clauses };
}

impl Sat for PlainSat {
    ghost count = { λ s. s.vars };

    ghost added = { λ s. s.added };

    /// Want of memory also where there are more variables than literals can name.
    fn make(alloc: Global, vars: u32) -> Result<PlainSat, Memory>
        ensures count { IfOk result (λ solver. solver.vars ≡ vars) }
        ensures added { IfOk result (λ solver. solver.added ≡ []) }
    {
        if vars > MOST_VARS {
            return Err(Memory);
        }
        Ok(PlainSat {
            vars,
            clauses: Numbered::new(alloc),
        })
    }

    fn fresh(&mut self) -> Result<Var, Memory>
        ensures var { IfOk result (λ var. var ≡ self.old.vars) }
        ensures small { IfOk result (λ var. var < 2 ^ 31) }
        ensures ok { OnOk result (self.new.vars ≡ self.old.vars + 1) }
        ensures err { OnErr result (self.new.vars ≡ self.old.vars) }
        ensures added { self.new.added ≡ self.old.added }
    {
        if self.vars >= MOST_VARS {
            return Err(Memory);
        }
        let var = Var(self.vars);
        self.vars += 1;
        Ok(var)
    }

    fn add(&mut self, alloc: Global, clause: &Clause) -> Result<u32, Memory>
        requires { IsBelow self.old.vars clause.now }
        ensures count { self.new.vars ≡ self.old.vars }
        ensures number { IfOk result (λ number. number ≡ length self.old.added) }
        ensures ok { OnOk result (self.new.added ≡ self.old.added ++ clause.now ∷ []) }
        ensures err { OnErr result (self.new.added ≡ self.old.added) }
    {
        let clause = clause.copy(alloc)?;
        let number = self.clauses.add(clause)?;
        Ok(number)
    }

    fn solve<F: Flag>(
        &mut self,
        alloc: Global,
        under: &[Lit],
        extra: Option<&Clause>,
        meter: &mut Meter,
        flag: &mut F,
    ) -> SatAnswer
        requires under { IsBelow self.old.vars under.now }
        requires extra { ExtraIsBelow self.old.vars (option_copied extra) }
        ensures count { self.new.vars ≡ self.old.vars }
        ensures added { self.new.added ≡ self.old.added }
        ensures answer { IsAnswer self.old.vars
            (clauses_of self.old.added (option_copied extra.entry)) under.now result }
        ensures ticked { IsTicked meter.old meter.new result }
        ensures lines { OnUnsat result (λ refuted.
            SpendsAtLeast meter.old meter.new (1 + length refuted.lines)) }
        ensures later { IsLater meter.old meter.new }
        ensures bounded { TicksAtMost meter.old meter.new (1 + 3 ^ self.old.vars) }
        ensures stopped { OnStopped result
            (IsFoundRaised F.may_rise F.raised flag.old flag.new) }
        ensures flag { IsPolled F.may_rise F.raised flag.old flag.new }
    {
        let answer = ask(
            alloc,
            self.vars,
            &mut self.clauses,
            under,
            extra,
            meter,
            flag,
        );
        self.clauses.forget_lines();
        answer
    }
}
