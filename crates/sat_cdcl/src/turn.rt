//! One turn of a search.

ghost use Rattle.std.specs.Prelude.{◌≡◌, ℕ, List, length, IfOk, ◌∷◌, [], ◌<◌, OnOk, ◌≤◌, ◌+◌};
ghost use Rattle.ja_base.specs.Clauses.{IsBelow};
ghost use Rattle.ja_base.specs.Literals.{negated};
ghost use Rattle.ja_outside.specs.Flags.{IsPolled, IsFoundRaised};
ghost use Rattle.sat_plain.specs.Ticks.{TicksAtMost, IsLater};
ghost use Rattle.sat_watch.specs.Steps.{IsStep};
ghost use Rattle.sat_cdcl.specs.Files.{places_of, IsKept};
ghost use Rattle.sat_cdcl.specs.Walks.{HasReason};
ghost use Rattle.sat_cdcl.specs.Turns.{IsUnderWay, IsRefuting, IsFalsified, IsTurned, IsTurnTicked, OnTurnStopped};

use crate::advance::{Move, advance};
use crate::backtrack::{Reaction, react};
use crate::conclude::refute_place;
use crate::database::Database;
use crate::decide::Order;
use crate::log::close;
use crate::query::Query;
use ja_base::{Lit, Lits, Memory, Meter, Row};
use ja_outside::Flag;
use sat_plain::{Payment, pay};
use sat_watch::Step;
use std::alloc::Global;

/// What a turn leaves.
#[derive(Debug, Drop)]
pub(crate) enum Outcome {
    GoesOn(Step),
    /// The row meets the clauses and what is assumed.
    Meets(Row),
    /// These of the literals that are assumed are refuted.
    Refutes(Lits),
    Spent,
    Stopped,
    Memory,
}

/// Both signs of a literal, which need no line.
pub(crate) fn both_signs(alloc: Global, lit: Lit) -> Result<Lits, Memory>
    ensures { IfOk result (λ core. core ≡ lit ∷ negated lit ∷ []) }
{
    let mut core = Lits::new(alloc);
    core.push(lit)?;
    core.push(lit.not())?;
    Ok(core)
}

/// The assumed literal that is the negation of that of a place is refuted.
fn refute(
    alloc: Global,
    db: &mut Database,
    query: &mut Query,
    at: u32,
    slot: u32,
) -> Result<Lits, Memory>
    requires at { at < length (places_of db.old) }
    requires reason { HasReason (places_of db.old) at slot }
    ensures kept { IsKept db.old db.new }
    ensures refutes { IfOk result (λ core. (under : List ℕ)
        → IsFalsified under (places_of db.old) at
        → IsRefuting under db.old query.old db.new query.new core) }
    ensures one { OnOk result (length query.new.lines ≡ length query.old.lines + 1) }
{
    let line = refute_place(alloc, db, at, slot)?;
    let core = close(alloc, db, &mut query.lines, line)?;
    Ok(core)
}

/// An assumed literal is false, since that of this place is true.
fn falsified<F: Flag>(
    alloc: Global,
    db: &mut Database,
    query: &mut Query,
    at: u32,
    meter: &mut Meter,
    flag: &mut F,
) -> Outcome
    requires at { at < length (places_of db.old) }
    ensures kept { IsKept db.old db.new }
    ensures turned { (under : List ℕ) → IsFalsified under (places_of db.old) at
        → IsTurned under db.old query.old db.new query.new result }
    ensures ticked { IsTurnTicked meter.old meter.new
        (length query.old.lines) (length query.new.lines) result }
    ensures later { IsLater meter.old meter.new }
    ensures bounded { TicksAtMost meter.old meter.new 1 }
    ensures stopped { OnTurnStopped result
        (IsFoundRaised F.may_rise F.raised flag.old flag.new) }
    ensures flag { IsPolled F.may_rise F.raised flag.old flag.new }
{
    let place = db.place(at);
    match place.reason {
        None => match both_signs(alloc, place.lit) {
            Ok(core) => Outcome::Refutes(core),
            Err(_) => Outcome::Memory,
        },
        Some(slot) => match pay(meter, flag) {
            Payment::Spent => Outcome::Spent,
            Payment::Stopped => Outcome::Stopped,
            Payment::Paid => match refute(alloc, db, query, at, slot) {
                Ok(core) => Outcome::Refutes(core),
                Err(_) => Outcome::Memory,
            },
        },
    }
}

/// A decision, or what is learnt from a conflict.
pub(crate) fn turn<F: Flag>(
    alloc: Global,
    db: &mut Database,
    order: &mut Order,
    query: &mut Query,
    under: &[Lit],
    step: Step,
    meter: &mut Meter,
    flag: &mut F,
) -> Outcome
    requires order { db.old.watched.trail.vars ≤ order.old }
    requires under { IsBelow db.old.watched.trail.vars under.now }
    requires under_way { IsUnderWay under.now db.old query.old }
    requires step { IsStep db.old.watched step }
    ensures order { order.new ≡ order.old }
    ensures kept { IsKept db.old db.new }
    ensures turned { IsTurned under.now db.old query.old db.new query.new result }
    ensures ticked { IsTurnTicked meter.old meter.new
        (length query.old.lines) (length query.new.lines) result }
    ensures later { IsLater meter.old meter.new }
    ensures bounded { TicksAtMost meter.old meter.new 1 }
    ensures stopped { OnTurnStopped result
        (IsFoundRaised F.may_rise F.raised flag.old flag.new) }
    ensures flag { IsPolled F.may_rise F.raised flag.old flag.new }
{
    match step {
        Step::Quiet => match advance(db, order, query, under, None) {
            Move::Decided(next) => Outcome::GoesOn(next),
            Move::Full => match db.trail().row(alloc) {
                Ok(row) => Outcome::Meets(row),
                Err(_) => Outcome::Memory,
            },
            Move::Falsified(at) => falsified(alloc, db, query, at, meter, flag),
        },
        Step::Conflict(slot) => match pay(meter, flag) {
            Payment::Spent => Outcome::Spent,
            Payment::Stopped => Outcome::Stopped,
            Payment::Paid => match react(alloc, db, order, query, slot) {
                Ok(Reaction::Backjump(next)) => Outcome::GoesOn(next),
                Ok(Reaction::Refutes(core)) => Outcome::Refutes(core),
                Err(_) => Outcome::Memory,
            },
        },
    }
}
