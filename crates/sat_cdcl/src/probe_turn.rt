//! One turn of a question without a log.

ghost use Rattle.std.specs.Prelude.{◌≡◌, ℕ, ◌<◌, ◌≤◌, ◌∷◌, [], List, Option, length, map, option_copied, IfOk};
ghost use Rattle.ja_base.specs.Clauses.{IsBelow};
ghost use Rattle.ja_base.specs.Literals.{negated};
ghost use Rattle.ja_outside.specs.Flags.{IsPolled, IsFoundRaised};
ghost use Rattle.sat_plain.specs.Probed.{Closes};
ghost use Rattle.sat_plain.specs.Ticks.{TicksAtMost, IsLater};
ghost use Rattle.sat_watch.specs.Steps.{IsConflict, IsStep};
ghost use Rattle.sat_cdcl.specs.Files.{list_of, places_of, IsKept};
ghost use Rattle.sat_cdcl.specs.Walks.{HasReason};
ghost use Rattle.sat_cdcl.specs.Turns.{IsUnderWay, IsFalsified};
ghost use Rattle.sat_cdcl.specs.declared.query.Query.{Query};
ghost use Rattle.sat_cdcl.specs.Questions.{LearnsOn, IsAnswered, IsTurned, IsTurnTicked, OnTurnStopped};

use crate::advance::{Move, advance};
use crate::analyze::{Learnt, analyze};
use crate::backtrack::{Reaction, backjump};
use crate::conclude::{refute_conflict, refute_place};
use crate::database::Database;
use crate::decide::Order;
use crate::question::Question;
use crate::turn::both_signs;
use ja_base::{Lit, Lits, Memory, Meter, Var};
use ja_outside::Flag;
use refute_check::Line;
use sat_plain::{Payment, negations, pay};
use sat_watch::Step;
use std::alloc::Global;

/// What a turn leaves.
#[derive(Debug, Drop)]
pub(crate) enum Turned {
    GoesOn(Step),
    /// Nothing is left to decide, and no clause is false.
    Open,
    /// These of the literals that are assumed are refuted.
    Closed(Lits),
    Spent,
    Stopped,
    Memory,
}

/// The literals that the clause of a line refutes.
fn core_of(alloc: Global, line: &Line) -> Result<Lits, Memory>
    ensures { IfOk result (λ core. core ≡ map negated line.now.clause) }
{
    let core = negations(alloc, line.clause.lits())?;
    Ok(core)
}

/// What is learnt takes a number, and decisions give way; where nothing is left of it, the clauses alone are refuted.
fn learn(
    alloc: Global,
    db: &mut Database,
    order: &mut Order,
    question: &mut Question,
    conflict: u32,
) -> Result<Reaction, Memory>
    requires conflict { IsConflict db.old.watched conflict }
    requires order { db.old.watched.trail.vars ≤ order.old }
    ensures order { order.new ≡ order.old }
    ensures kept { IsKept db.old db.new }
    ensures learns { LearnsOn db.old question.old db.new question.new }
    ensures answered { IfOk result (λ reaction. (under : List ℕ)
        → IsUnderWay under db.old question.old.query
        → IsAnswered under db.old db.new question.new.query reaction) }
{
    let Learnt { line, asserts } = analyze(alloc, db, order, conflict)?;
    match asserts {
        Some(point) => {
            let slot = question.learn(alloc, db, line)?;
            let step = backjump(db, order, &mut question.query, slot, point);
            Ok(Reaction::Backjump(step))
        }
        None => {
            let core = core_of(alloc, &line)?;
            Ok(Reaction::Refutes(core))
        }
    }
}

/// What a conflict leads to. Where only assumed literals were decided, they are refuted.
fn react(
    alloc: Global,
    db: &mut Database,
    order: &mut Order,
    question: &mut Question,
    conflict: u32,
) -> Result<Reaction, Memory>
    requires conflict { IsConflict db.old.watched conflict }
    requires order { db.old.watched.trail.vars ≤ order.old }
    ensures order { order.new ≡ order.old }
    ensures kept { IsKept db.old db.new }
    ensures learns { LearnsOn db.old question.old db.new question.new }
    ensures answered { IfOk result (λ reaction. (under : List ℕ)
        → IsUnderWay under db.old question.old.query
        → IsAnswered under db.old db.new question.new.query reaction) }
{
    match question.query.free {
        Some(_) => learn(alloc, db, order, question, conflict),
        None => {
            let line = refute_conflict(alloc, db, conflict)?;
            let core = core_of(alloc, &line)?;
            Ok(Reaction::Refutes(core))
        }
    }
}

/// The assumed literal that is the negation of that of a place is refuted.
fn refute(alloc: Global, db: &Database, at: u32, slot: u32) -> Result<Lits, Memory>
    requires at { at < length (places_of db.now) }
    requires reason { HasReason (places_of db.now) at slot }
    ensures { IfOk result (λ core. (under : List ℕ) → IsFalsified under (places_of db.now) at
        → Closes db.now.watched.trail.vars (list_of db.now) under core) }
{
    let line = refute_place(alloc, db, at, slot)?;
    let core = core_of(alloc, &line)?;
    Ok(core)
}

/// An assumed literal is false, since that of this place is true.
fn falsified<F: Flag>(
    alloc: Global,
    db: &Database,
    at: u32,
    meter: &mut Meter,
    flag: &mut F,
) -> Turned
    requires at { at < length (places_of db.now) }
    ensures turned { (under : List ℕ) (among : Option (List ℕ)) (query : Query)
        → IsFalsified under (places_of db.now) at
        → IsTurned under among db.now db.now query result }
    ensures ticked { IsTurnTicked meter.old meter.new result }
    ensures later { IsLater meter.old meter.new }
    ensures bounded { TicksAtMost meter.old meter.new 1 }
    ensures stopped { OnTurnStopped result
        (IsFoundRaised F.may_rise F.raised flag.old flag.new) }
    ensures flag { IsPolled F.may_rise F.raised flag.old flag.new }
{
    let place = db.place(at);
    match place.reason {
        None => match both_signs(alloc, place.lit) {
            Ok(core) => Turned::Closed(core),
            Err(_) => Turned::Memory,
        },
        Some(slot) => match pay(meter, flag) {
            Payment::Spent => Turned::Spent,
            Payment::Stopped => Turned::Stopped,
            Payment::Paid => match refute(alloc, db, at, slot) {
                Ok(core) => Turned::Closed(core),
                Err(_) => Turned::Memory,
            },
        },
    }
}

/// A decision, or what is learnt from a conflict.
pub(crate) fn turn<F: Flag>(
    alloc: Global,
    db: &mut Database,
    order: &mut Order,
    question: &mut Question,
    under: &[Lit],
    among: Option<&[Var]>,
    step: Step,
    meter: &mut Meter,
    flag: &mut F,
) -> Turned
    requires order { db.old.watched.trail.vars ≤ order.old }
    requires under { IsBelow db.old.watched.trail.vars under.now }
    requires under_way { IsUnderWay under.now db.old question.old.query }
    requires step { IsStep db.old.watched step }
    ensures order { order.new ≡ order.old }
    ensures kept { IsKept db.old db.new }
    ensures learns { LearnsOn db.old question.old db.new question.new }
    ensures turned { IsTurned under.now (option_copied among.entry) db.old db.new
        question.new.query result }
    ensures ticked { IsTurnTicked meter.old meter.new result }
    ensures later { IsLater meter.old meter.new }
    ensures bounded { TicksAtMost meter.old meter.new 1 }
    ensures stopped { OnTurnStopped result
        (IsFoundRaised F.may_rise F.raised flag.old flag.new) }
    ensures flag { IsPolled F.may_rise F.raised flag.old flag.new }
{
    match step {
        Step::Quiet => match advance(db, order, &mut question.query, under, among) {
            Move::Decided(next) => Turned::GoesOn(next),
            Move::Full => Turned::Open,
            Move::Falsified(at) => falsified(alloc, db, at, meter, flag),
        },
        Step::Conflict(slot) => match pay(meter, flag) {
            Payment::Spent => Turned::Spent,
            Payment::Stopped => Turned::Stopped,
            Payment::Paid => match react(alloc, db, order, question, slot) {
                Ok(Reaction::Backjump(next)) => Turned::GoesOn(next),
                Ok(Reaction::Refutes(core)) => Turned::Closed(core),
                Err(_) => Turned::Memory,
            },
        },
    }
}
