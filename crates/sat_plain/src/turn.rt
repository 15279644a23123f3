//! One turn of a search.

ghost use Rattle.std.specs.Prelude.{◌≡◌, length};
ghost use Rattle.ja_outside.specs.Flags.{IsPolled, IsFoundRaised};
ghost use Rattle.sat_plain.specs.Ticks.{TicksAtMost, IsLater};
ghost use Rattle.sat_plain.specs.Turns.{IsUnderWay, Continues};
ghost use Rattle.sat_plain.specs.Outcomes.{IsTurned, IsTurnTicked, OnTurnStopped};

use crate::backtrack::learn;
use crate::budget::{Payment, pay};
use crate::propagate::{Progress, advance};
use crate::query::Query;
use ja_base::{Lits, Meter, Row};
use ja_outside::Flag;
use refute_check::Numbered;
use std::alloc::Global;

/// What a turn leaves.
#[derive(Debug, Drop)]
pub(crate) enum Outcome {
    GoesOn,
    /// The row meets the clauses and what is assumed.
    Meets(Row),
    /// These of the literals that are assumed are refuted.
    Refutes(Lits),
    Spent,
    Stopped,
    Memory,
}

/// A pass, a decision, or what is learnt from a conflict.
pub(crate) fn turn<F: Flag>(
    alloc: Global,
    clauses: &mut Numbered,
    query: &mut Query,
    meter: &mut Meter,
    flag: &mut F,
) -> Outcome
    requires search { IsUnderWay query.old clauses.old }
    ensures vars { query.new.trail.vars ≡ query.old.trail.vars }
    ensures assumed { query.new.assumed ≡ query.old.assumed }
    ensures next { Continues query.old clauses.old query.new clauses.new }
    ensures turned { IsTurned query.old.trail.vars query.old.assumed query.old.trail.places
        query.new.trail.places clauses.new.list result }
    ensures ticked { IsTurnTicked meter.old meter.new
        (length query.old.lines) (length query.new.lines) result }
    ensures later { IsLater meter.old meter.new }
    ensures bounded { TicksAtMost meter.old meter.new 1 }
    ensures stopped { OnTurnStopped result
        (IsFoundRaised F.may_rise F.raised flag.old flag.new) }
    ensures flag { IsPolled F.may_rise F.raised flag.old flag.new }
{
    match advance(&mut query.trail, clauses) {
        Progress::Moved => Outcome::GoesOn,
        Progress::Quiet => match query.trail.row(alloc) {
            Ok(row) => Outcome::Meets(row),
            Err(_) => Outcome::Memory,
        },
        Progress::Conflict(number) => match pay(meter, flag) {
            Payment::Spent => Outcome::Spent,
            Payment::Stopped => Outcome::Stopped,
            Payment::Paid => match learn(alloc, clauses, query, number) {
                Ok(None) => Outcome::GoesOn,
                Ok(Some(core)) => Outcome::Refutes(core),
                Err(_) => Outcome::Memory,
            },
        },
    }
}
