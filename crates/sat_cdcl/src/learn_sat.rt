//! The solver that learns.

ghost use Rattle.std.specs.Prelude.{◌≡◌, ◌+◌, ◌<◌, ◌^◌, [], ◌∷◌, ◌++◌, length, option_copied, IfOk, OnOk, OnErr, ◌≤◌};
ghost use Rattle.ja_base.specs.Clauses.{IsBelow};
ghost use Rattle.ja_outside.specs.Flags.{IsPolled, IsFoundRaised};
ghost use Rattle.sat_plain.specs.Answer.{clauses_of, ExtraIsBelow, IsAnswer, OnStopped, OnUnsat};
ghost use Rattle.sat_plain.specs.Ticks.{TicksAtMost, SpendsAtLeast, IsLater, IsTicked};
ghost use Rattle.sat_plain.specs.Outcomes.{IsFound, IsFoundTicked};
ghost use Rattle.sat_cdcl.specs.Files.{list_of, places_of, IsKept, AreForcedAll};

use crate::database::Database;
use crate::decide::{MOST_VARS, Order};
use crate::query::Query;
use crate::search::search;
use ja_base::{Clause, Lit, Memory, Meter, Var};
use ja_outside::Flag;
use refute_check::Lines;
use sat_plain::{Payment, Sat, SatAnswer, pay};
use std::alloc::Global;
use std::marker::Model;

/// A solver that learns a clause from each conflict and jumps back to where it forces a literal. From query to query it keeps
/// the literals that the added clauses force, the signs that variables had, and their activities; it drops what it learnt.
#[derive(Debug, Drop)]
pub struct LearnSat {
    db: Database,
    order: Order,
}

impl Model for LearnSat {
    ghost use Rattle.std.specs.Prelude.{◌≤◌};
    ghost use Rattle.sat_plain.specs.Solvers.{Solver};
    ghost use Rattle.sat_cdcl.specs.Files.{list_of, places_of, AreForcedAll};

    ghost Value = { Solver };

    ghost view = { λ a. record { vars = a.db.watched.trail.vars; added = list_of a.db } };

    ghost invariant = { λ a. (a.db.watched.trail.vars ≤ a.order) × AreForcedAll (places_of a.db) };
}

/// The extra clause takes the next number, where it is given.
fn put_extra(alloc: Global, db: &mut Database, extra: Option<&Clause>) -> Result<(), Memory>
    requires { ExtraIsBelow db.old.watched.trail.vars (option_copied extra) }
    ensures ok { OnOk result
        (list_of db.new ≡ clauses_of (list_of db.old) (option_copied extra.entry)) }
    ensures trail { db.new.watched.trail ≡ db.old.watched.trail }
    ensures kept { IsKept db.old db.new }
{
    match extra {
        Some(clause) => {
            let clause = clause.copy(alloc)?;
            db.put(clause)?;
            Ok(())
        }
        None => Ok(()),
    }
}

/// Answers over the clauses and the extra one.
fn ask<F: Flag>(
    alloc: Global,
    db: &mut Database,
    order: &mut Order,
    under: &[Lit],
    extra: Option<&Clause>,
    meter: &mut Meter,
    flag: &mut F,
) -> SatAnswer
    requires order { db.old.watched.trail.vars ≤ order.old }
    requires under { IsBelow db.old.watched.trail.vars under.now }
    requires extra { ExtraIsBelow db.old.watched.trail.vars (option_copied extra) }
    requires forced { AreForcedAll (places_of db.old) }
    ensures order { order.new ≡ order.old }
    ensures kept { IsKept db.old db.new }
    ensures answer { IsFound db.old.watched.trail.vars
        (clauses_of (list_of db.old) (option_copied extra.entry)) under.now result }
    ensures ticked { IsFoundTicked meter.old meter.new result }
    ensures later { IsLater meter.old meter.new }
    ensures bounded { TicksAtMost meter.old meter.new (3 ^ db.old.watched.trail.vars) }
    ensures stopped { OnStopped result
        (IsFoundRaised F.may_rise F.raised flag.old flag.new) }
    ensures flag { IsPolled F.may_rise F.raised flag.old flag.new }
{
    match put_extra(alloc, db, extra) {
        Err(_) => SatAnswer::Memory,
        Ok(()) => {
            let step = db.propagate();
            let query = Query {
                lines: Lines::new(alloc),
                free: None,
                cursor: 0,
            };
            search(alloc, db, order, query, under, step, meter, flag)
        }
    }
}

impl LearnSat {
    /// A query behind its first unit. What the added clauses force stays on the trail.
    fn query<F: Flag>(
        &mut self,
        alloc: Global,
        under: &[Lit],
        extra: Option<&Clause>,
        meter: &mut Meter,
        flag: &mut F,
    ) -> SatAnswer
        requires under { IsBelow self.old.vars under.now }
        requires extra { ExtraIsBelow self.old.vars (option_copied extra) }
        ensures same { self.new ≡ self.old }
        ensures answer { IsFound self.old.vars
            (clauses_of self.old.added (option_copied extra.entry)) under.now result }
        ensures ticked { IsFoundTicked meter.old meter.new result }
        ensures later { IsLater meter.old meter.new }
        ensures bounded { TicksAtMost meter.old meter.new (3 ^ self.old.vars) }
        ensures stopped { OnStopped result
            (IsFoundRaised F.may_rise F.raised flag.old flag.new) }
        ensures flag { IsPolled F.may_rise F.raised flag.old flag.new }
    {
        let _root = self.db.propagate();
        let root = self.db.trail().len();
        let added = self.db.len();
        let answer = ask(
            alloc,
            &mut self.db,
            &mut self.order,
            under,
            extra,
            meter,
            flag,
        );
        self.order.release_all(self.db.trail(), root);
        self.db.undo(root);
        self.db.cut(added);
        answer
    }
}

impl Sat for LearnSat {
    ghost count = { λ s. s.vars };

    ghost added = { λ s. s.added };

    /// Want of memory also where there are more variables than literals can name.
    fn make(alloc: Global, vars: u32) -> Result<LearnSat, Memory>
        ensures count { IfOk result (λ solver. solver.vars ≡ vars) }
        ensures added { IfOk result (λ solver. solver.added ≡ []) }
    {
        if vars > MOST_VARS {
            return Err(Memory);
        }
        let db = Database::new(alloc, vars)?;
        let order = Order::new(alloc, vars)?;
        Ok(LearnSat { db, order })
    }

    fn fresh(&mut self) -> Result<Var, Memory>
        ensures var { IfOk result (λ var. var ≡ self.old.vars) }
        ensures small { IfOk result (λ var. var < 2 ^ 31) }
        ensures ok { OnOk result (self.new.vars ≡ self.old.vars + 1) }
        ensures err { OnErr result (self.new.vars ≡ self.old.vars) }
        ensures added { self.new.added ≡ self.old.added }
    {
        self.order.fresh()?;
        let var = self.db.fresh()?;
        Ok(var)
    }

    fn add(&mut self, alloc: Global, clause: &Clause) -> Result<u32, Memory>
        requires { IsBelow self.old.vars clause.now }
        ensures count { self.new.vars ≡ self.old.vars }
        ensures number { IfOk result (λ number. number ≡ length self.old.added) }
        ensures ok { OnOk result (self.new.added ≡ self.old.added ++ clause.now ∷ []) }
        ensures err { OnErr result (self.new.added ≡ self.old.added) }
    {
        let number = self.db.len();
        let clause = clause.copy(alloc)?;
        self.db.put(clause)?;
        Ok(number)
    }

    fn solve<F: Flag>(
        &mut self,
        alloc: Global,
        under: &[Lit],
        extra: Option<&Clause>,
        meter: &mut Meter,
        flag: &mut F,
    ) -> SatAnswer
        requires under { IsBelow self.old.vars under.now }
        requires extra { ExtraIsBelow self.old.vars (option_copied extra) }
        ensures count { self.new.vars ≡ self.old.vars }
        ensures added { self.new.added ≡ self.old.added }
        ensures answer { IsAnswer self.old.vars
            (clauses_of self.old.added (option_copied extra.entry)) under.now result }
        ensures ticked { IsTicked meter.old meter.new result }
        ensures lines { OnUnsat result (λ refuted.
            SpendsAtLeast meter.old meter.new (1 + length refuted.lines)) }
        ensures later { IsLater meter.old meter.new }
        ensures bounded { TicksAtMost meter.old meter.new (1 + 3 ^ self.old.vars) }
        ensures stopped { OnStopped result
            (IsFoundRaised F.may_rise F.raised flag.old flag.new) }
        ensures flag { IsPolled F.may_rise F.raised flag.old flag.new }
    {
        match pay(meter, flag) {
            Payment::Spent => SatAnswer::Spent,
            Payment::Stopped => SatAnswer::Stopped,
            Payment::Paid => self.query(alloc, under, extra, meter, flag),
        }
    }
}
