//! What is done with a conflict.

ghost use Rattle.std.specs.Prelude.{◌≡◌, ℕ, ◌+◌, ◌≤◌, List, length, IfOk, OnOk};
ghost use Rattle.sat_plain.specs.Turns.{IsFurther};
ghost use Rattle.sat_watch.specs.Steps.{IsConflict, IsStep};
ghost use Rattle.sat_cdcl.specs.Files.{list_of, places_of, IsKept};
ghost use Rattle.sat_cdcl.specs.Walks.{IsAssertedBy};
ghost use Rattle.sat_cdcl.specs.Turns.{IsUnderWay, IsReacted};

use crate::analyze::{Learnt, Point, analyze};
use crate::conclude::refute_conflict;
use crate::database::Database;
use crate::decide::Order;
use crate::log::{close, log};
use crate::query::Query;
use ja_base::{Lits, Memory};
use sat_watch::Step;
use std::alloc::Global;

/// What a conflict leads to.
#[derive(Debug, Drop)]
pub(crate) enum Reaction {
    /// Decisions gave way to a literal that is forced.
    Backjump(Step),
    /// These of the literals that are assumed are refuted.
    Refutes(Lits),
}

/// The decisions from some place on give way to a literal that the clause of this slot forces.
pub(crate) fn backjump(
    db: &mut Database,
    order: &mut Order,
    query: &mut Query,
    slot: u32,
    point: Point,
) -> Step
    requires asserted { IsAssertedBy db.old slot point }
    requires order { db.old.watched.trail.vars ≤ order.old }
    ensures order { order.new ≡ order.old }
    ensures kept { IsKept db.old db.new }
    ensures further { IsFurther db.old.watched.trail.vars (places_of db.old) (places_of db.new) }
    ensures step { IsStep db.new.watched result }
    ensures list { list_of db.new ≡ list_of db.old }
    ensures lines { query.new.lines ≡ query.old.lines }
    ensures under_way { (under : List ℕ) → IsUnderWay under db.old query.old
        → IsUnderWay under db.new query.new }
{
    order.release_all(db.trail(), point.back);
    db.undo(point.back);
    query.retreat(point.back);
    db.force(point.lit, slot)
}

/// What is learnt joins the log, and decisions give way; where nothing is left of it, the clauses alone are refuted.
fn learn(
    alloc: Global,
    db: &mut Database,
    order: &mut Order,
    query: &mut Query,
    conflict: u32,
) -> Result<Reaction, Memory>
    requires conflict { IsConflict db.old.watched conflict }
    requires order { db.old.watched.trail.vars ≤ order.old }
    ensures order { order.new ≡ order.old }
    ensures kept { IsKept db.old db.new }
    ensures one { OnOk result (length query.new.lines ≡ length query.old.lines + 1) }
    ensures reacted { IfOk result (λ reaction. (under : List ℕ) → IsUnderWay under db.old query.old
        → IsReacted under db.old query.old db.new query.new reaction) }
{
    let Learnt { line, asserts } = analyze(alloc, db, order, conflict)?;
    match asserts {
        Some(point) => {
            let slot = log(alloc, db, &mut query.lines, line)?;
            let step = backjump(db, order, query, slot, point);
            Ok(Reaction::Backjump(step))
        }
        None => {
            let core = close(alloc, db, &mut query.lines, line)?;
            Ok(Reaction::Refutes(core))
        }
    }
}

/// What a conflict leads to. Where only assumed literals were decided, they are refuted.
pub(crate) fn react(
    alloc: Global,
    db: &mut Database,
    order: &mut Order,
    query: &mut Query,
    conflict: u32,
) -> Result<Reaction, Memory>
    requires conflict { IsConflict db.old.watched conflict }
    requires order { db.old.watched.trail.vars ≤ order.old }
    ensures order { order.new ≡ order.old }
    ensures kept { IsKept db.old db.new }
    ensures one { OnOk result (length query.new.lines ≡ length query.old.lines + 1) }
    ensures reacted { IfOk result (λ reaction. (under : List ℕ) → IsUnderWay under db.old query.old
        → IsReacted under db.old query.old db.new query.new reaction) }
{
    match query.free {
        Some(_) => learn(alloc, db, order, query, conflict),
        None => {
            let line = refute_conflict(alloc, db, conflict)?;
            let core = close(alloc, db, &mut query.lines, line)?;
            Ok(Reaction::Refutes(core))
        }
    }
}
