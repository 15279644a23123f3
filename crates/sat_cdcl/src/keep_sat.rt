//! The solver that keeps what it learns.

ghost use Rattle.std.specs.Prelude.{◌≡◌, ◌+◌, ◌<◌, ◌≤◌, ◌^◌, [], ◌∷◌, ◌++◌, ℕ, List, All, None, length, option_copied, IfOk, OnOk, OnErr};
ghost use Rattle.ja_base.specs.Clauses.{IsBelow};
ghost use Rattle.ja_outside.specs.Flags.{IsPolled, IsFoundRaised};
ghost use Rattle.refute_check.specs.Checked.{FollowsOne, Follows, clauses_at};
ghost use Rattle.sat_plain.specs.Answer.{clauses_of, ExtraIsBelow, IsAnswer, OnStopped};
ghost use Rattle.sat_plain.specs.Probed.{IsProbed, OnProbeStopped};
ghost use Rattle.sat_plain.specs.Ticks.{TicksAtMost, IsLater, IsTicked};
ghost use Rattle.sat_cdcl.specs.Files.{list_of, places_of, IsKept, AreForcedAll};
ghost use Rattle.sat_cdcl.specs.Questions.{IsLearning, IsFoundTicked, IsKeepable};

use crate::database::Database;
use crate::decide::{MOST_VARS, Order};
use crate::learn_sat::LearnSat;
use crate::probe_search::search;
use crate::question::Question;
use ja_base::{Clause, Lit, Memory, Meter, Row, Var};
use ja_outside::Flag;
use sat_plain::{Probed, Sat, SatAnswer};
use std::alloc::Global;
use std::marker::Model;

/// A kept clause of more literals is dropped when the kept ones are reduced.
const SHORT: usize = 3;

/// So many kept clauses are never reduced.
const FEW: u32 = 1000;

/// A solver for questions without a log. From question to question it keeps the short clauses that it learnt, but for what rests
/// on an extra clause, and all that `LearnSat` keeps; now and then it drops the longer ones of these clauses. A query with a log
/// is handed to a `LearnSat` that is made for it.
#[derive(Debug, Drop)]
pub struct KeepSat {
    db: Database,
    order: Order,
    added: Vec<u32>,
    most: u32,
}

impl Model for KeepSat {
    ghost use Rattle.refute_check.specs.Checked.{clauses_at};
    ghost use Rattle.sat_plain.specs.Solvers.{Solver};
    ghost use Rattle.sat_cdcl.specs.Files.{list_of};
    ghost use Rattle.sat_cdcl.specs.Questions.{IsKeeper};

    ghost Value = { Solver };

    ghost view = { λ a. record {
      vars = a.db.watched.trail.vars;
      added = clauses_at (list_of a.db) a.added.items;
    } };

    ghost invariant = { λ a. IsKeeper a.order a.db a.added.items };
}

/// A solver with the clauses of these numbers.
fn load<S: Sat>(alloc: Global, db: &Database, added: &[u32]) -> Result<S, Memory>
    requires { All (λ n. n < length (list_of db.now)) added.now }
    ensures vars { IfOk result (λ solver. S.count solver ≡ db.now.watched.trail.vars) }
    ensures added { IfOk result
        (λ solver. S.added solver ≡ clauses_at (list_of db.now) added.now) }
{
    let mut solver = S::make(alloc, db.vars())?;
    for number in added {
        solver.add(alloc, db.numbered(*number))?;
    }
    Ok(solver)
}

/// The clauses take the next numbers, as long as there is memory.
fn recall(db: &mut Database, mut clauses: Vec<Clause>)
    requires { All (IsBelow db.old.watched.trail.vars) clauses.items }
    ensures kept { IsKept db.old db.new }
    ensures trail { db.new.watched.trail ≡ db.old.watched.trail }
    ensures follows { (added : List (List ℕ)) → All (FollowsOne added) clauses.items
        → Follows added (list_of db.old) → Follows added (list_of db.new) }
{
    while let Some(clause) = clauses.pop() {
        match db.put(clause) {
            Ok(_) => {}
            Err(_) => return,
        }
    }
}

/// Whether the number is the next of these, which is then passed by.
fn is_next(added: &[u32], next: &mut usize, number: u32) -> bool {
    if *next < added.len() && added[*next] == number {
        *next += 1;
        return true;
    }
    false
}

/// Copies of the short clauses that do not have one of these numbers, which ascend.
fn short_of(alloc: Global, db: &Database, added: &[u32]) -> Result<Vec<Clause>, Memory>
    ensures { IfOk result (λ kept. (added : List (List ℕ)) → Follows added (list_of db.now)
        → All (IsKeepable db.now.watched.trail.vars added) kept.items) }
{
    let mut question = Question::new(alloc, 0);
    let mut next = 0;
    for number in 0..db.len() {
        let clause = db.numbered(number);
        let leaves = is_next(added, &mut next, number) || clause.lits().len() > SHORT;
        question.note(alloc, clause, leaves)?;
    }
    let Question {
        query: _,
        first: _,
        taints: _,
        kept,
    } = question;
    Ok(kept)
}

/// Answers over the clauses and the extra one.
fn ask<F: Flag>(
    alloc: Global,
    db: &mut Database,
    order: &mut Order,
    question: &mut Question,
    under: &[Lit],
    extra: Option<&Clause>,
    among: Option<&[Var]>,
    row: &mut Row,
    meter: &mut Meter,
    flag: &mut F,
) -> Probed
    requires order { db.old.watched.trail.vars ≤ order.old }
    requires under { IsBelow db.old.watched.trail.vars under.now }
    requires extra { ExtraIsBelow db.old.watched.trail.vars (option_copied extra) }
    requires forced { AreForcedAll (places_of db.old) }
    requires free { question.old.query.free ≡ None }
    requires cursor { question.old.query.cursor ≡ 0 }
    ensures order { order.new ≡ order.old }
    ensures kept { IsKept db.old db.new }
    ensures keeps { (added : List (List ℕ))
        → IsLearning db.old.watched.trail.vars added None (list_of db.old) question.old
        → All (IsKeepable db.old.watched.trail.vars added) question.new.kept.items }
    ensures width { length row.new ≡ length row.old }
    ensures answer { (added : List (List ℕ))
        → IsLearning db.old.watched.trail.vars added None (list_of db.old) question.old
        → IsProbed db.old.watched.trail.vars (clauses_of added (option_copied extra.entry))
        under.now (option_copied among.entry) row.new result }
    ensures ticked { IsFoundTicked meter.old meter.new result }
    ensures later { IsLater meter.old meter.new }
    ensures bounded { TicksAtMost meter.old meter.new (3 ^ db.old.watched.trail.vars) }
    ensures stopped { OnProbeStopped result
        (IsFoundRaised F.may_rise F.raised flag.old flag.new) }
    ensures flag { IsPolled F.may_rise F.raised flag.old flag.new }
{
    match question.put_extra(alloc, db, extra) {
        Err(_) => Probed::Memory,
        Ok(()) => {
            let step = db.propagate();
            search(
                alloc, db, order, question, under, among, step, row, meter, flag,
            )
        }
    }
}

impl KeepSat {
    /// Keeps these clauses, which follow from the added ones, as long as there is memory.
    fn keep(&mut self, clauses: Vec<Clause>)
        requires { All (IsKeepable self.old.vars self.old.added) clauses.items }
        ensures { self.new ≡ self.old }
    {
        recall(&mut self.db, clauses);
    }

    /// The same solver without the long clauses among those that it kept.
    fn reduced(&self, alloc: Global) -> Result<KeepSat, Memory>
        ensures { IfOk result (λ solver. solver ≡ self.now) }
    {
        let kept = short_of(alloc, &self.db, self.added.as_slice())?;
        let mut solver: KeepSat = load(alloc, &self.db, self.added.as_slice())?;
        solver.keep(kept);
        Ok(solver)
    }

    /// Takes the clauses of another solver, which are the same but for those that it kept.
    fn adopt(&mut self, other: KeepSat)
        requires { other ≡ self.old }
        ensures { self.new ≡ self.old }
    {
        let KeepSat {
            db,
            order: _,
            added,
            most: _,
        } = other;
        self.order.release_all(self.db.trail(), 0);
        self.db = db;
        self.added = added;
    }

    /// Drops the long clauses among those that it kept, if there is memory.
    fn shrink(&mut self, alloc: Global)
        ensures { self.new ≡ self.old }
    {
        match self.reduced(alloc) {
            Ok(solver) => self.adopt(solver),
            Err(_) => {}
        }
    }

    /// How many clauses it has beside the added ones.
    fn kept(&self) -> u32 {
        self.db.len().saturating_sub(self.added.len() as u32)
    }

    /// Drops the longer clauses among those that it kept, once there are many.
    pub(crate) fn reduce(&mut self, alloc: Global)
        ensures { self.new ≡ self.old }
    {
        if self.kept() <= self.most {
            return;
        }
        self.shrink(alloc);
        let more = FEW.max(self.db.len() / 2);
        self.most = self.kept().saturating_add(more);
    }

    /// A question behind its first unit. What the clauses force stays on the trail, and what follows from the added ones alone
    /// is kept.
    pub(crate) fn question<F: Flag>(
        &mut self,
        alloc: Global,
        under: &[Lit],
        extra: Option<&Clause>,
        among: Option<&[Var]>,
        row: &mut Row,
        meter: &mut Meter,
        flag: &mut F,
    ) -> Probed
        requires under { IsBelow self.old.vars under.now }
        requires extra { ExtraIsBelow self.old.vars (option_copied extra) }
        ensures same { self.new ≡ self.old }
        ensures width { length row.new ≡ length row.old }
        ensures answer { IsProbed self.old.vars
            (clauses_of self.old.added (option_copied extra.entry)) under.now
            (option_copied among.entry) row.new result }
        ensures ticked { IsFoundTicked meter.old meter.new result }
        ensures later { IsLater meter.old meter.new }
        ensures bounded { TicksAtMost meter.old meter.new (3 ^ self.old.vars) }
        ensures stopped { OnProbeStopped result
            (IsFoundRaised F.may_rise F.raised flag.old flag.new) }
        ensures flag { IsPolled F.may_rise F.raised flag.old flag.new }
    {
        let _root = self.db.propagate();
        let root = self.db.trail().len();
        let first = self.db.len();
        let mut question = Question::new(alloc, first);
        let answer = ask(
            alloc,
            &mut self.db,
            &mut self.order,
            &mut question,
            under,
            extra,
            among,
            row,
            meter,
            flag,
        );
        self.order.release_all(self.db.trail(), root);
        self.db.undo(root);
        self.db.cut(first);
        let Question {
            query: _,
            first: _,
            taints: _,
            kept,
        } = question;
        recall(&mut self.db, kept);
        answer
    }
}

impl Sat for KeepSat {
    ghost count = { λ s. s.vars };

    ghost added = { λ s. s.added };

    /// Want of memory also where there are more variables than literals can name.
    fn make(alloc: Global, vars: u32) -> Result<KeepSat, Memory>
        ensures count { IfOk result (λ solver. solver.vars ≡ vars) }
        ensures added { IfOk result (λ solver. solver.added ≡ []) }
    {
        if vars > MOST_VARS {
            return Err(Memory);
        }
        let db = Database::new(alloc, vars)?;
        let order = Order::new(alloc, vars)?;
        Ok(KeepSat {
            db,
            order,
            added: Vec::new(alloc),
            most: FEW,
        })
    }

    fn fresh(&mut self) -> Result<Var, Memory>
        ensures var { IfOk result (λ var. var ≡ self.old.vars) }
        ensures small { IfOk result (λ var. var < 2 ^ 31) }
        ensures ok { OnOk result (self.new.vars ≡ self.old.vars + 1) }
        ensures err { OnErr result (self.new.vars ≡ self.old.vars) }
        ensures added { self.new.added ≡ self.old.added }
    {
        self.order.fresh()?;
        let var = self.db.fresh()?;
        Ok(var)
    }

    fn add(&mut self, alloc: Global, clause: &Clause) -> Result<u32, Memory>
        requires { IsBelow self.old.vars clause.now }
        ensures count { self.new.vars ≡ self.old.vars }
        ensures number { IfOk result (λ number. number ≡ length self.old.added) }
        ensures ok { OnOk result (self.new.added ≡ self.old.added ++ clause.now ∷ []) }
        ensures err { OnErr result (self.new.added ≡ self.old.added) }
    {
        let number = self.added.len() as u32;
        if number == u32::MAX {
            return Err(Memory);
        }
        let clause = clause.copy(alloc)?;
        self.added.reserve(1)?;
        let place = self.db.len();
        self.db.put(clause)?;
        self.added.push_reserved(place);
        Ok(number)
    }

    fn solve<F: Flag>(
        &mut self,
        alloc: Global,
        under: &[Lit],
        extra: Option<&Clause>,
        meter: &mut Meter,
        flag: &mut F,
    ) -> SatAnswer
        requires under { IsBelow self.old.vars under.now }
        requires extra { ExtraIsBelow self.old.vars (option_copied extra) }
        ensures count { self.new.vars ≡ self.old.vars }
        ensures added { self.new.added ≡ self.old.added }
        ensures answer { IsAnswer self.old.vars
            (clauses_of self.old.added (option_copied extra.entry)) under.now result }
        ensures ticked { IsTicked meter.old meter.new result }
        ensures later { IsLater meter.old meter.new }
        ensures bounded { TicksAtMost meter.old meter.new (1 + 3 ^ self.old.vars) }
        ensures stopped { OnStopped result
            (IsFoundRaised F.may_rise F.raised flag.old flag.new) }
        ensures flag { IsPolled F.may_rise F.raised flag.old flag.new }
    {
        match load::<LearnSat>(alloc, &self.db, self.added.as_slice()) {
            Ok(mut solver) => solver.solve(alloc, under, extra, meter, flag),
            Err(_) => SatAnswer::Memory,
        }
    }
}
