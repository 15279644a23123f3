//! What is learnt from a conflict: a clause that forces a literal of the first place through which all paths from the last
//! decision to the conflict lead.

ghost use Rattle.std.specs.Prelude.{◌≡◌, ◌+◌, ◌*◌, ◌<◌, ◌≤◌, [], Some, None, length, slice_get, IfOk, IfSome, OnOk, ℕ};
ghost use Rattle.refute_check.specs.Lines.{refusal};
ghost use Rattle.sat_plain.specs.Trails.{lits_of};
ghost use Rattle.sat_plain.specs.Derive.{IsDerived, IsWalked};
ghost use Rattle.sat_watch.specs.Steps.{IsConflict};
ghost use Rattle.sat_cdcl.specs.Files.{list_of, places_of};
ghost use Rattle.sat_cdcl.specs.Walks.{IsMet, GoesOn, IsPointedAt, IsLowering, IsLearntAt, IsDecided, AreUnmarked, HasReason, IsPoint};

use crate::database::Database;
use crate::decide::Order;
use crate::minimize::is_redundant;
use ja_base::{Lit, Memory};
use refute_check::Line;
use sat_plain::{Derivation, Trail};
use std::alloc::Global;

/// A literal, and the place of a decision from which on the trail is to go.
#[derive(Clone, Copy, Debug)]
pub(crate) struct Point {
    pub(crate) lit: Lit,
    pub(crate) back: u32,
}

/// A line, and the literal that its clause forces; none where the clause is empty.
#[derive(Debug, Drop)]
pub(crate) struct Learnt {
    pub(crate) line: Line,
    pub(crate) asserts: Option<Point>,
}

/// What is found first below a place.
#[derive(Clone, Copy, Debug)]
pub(crate) enum Met {
    /// The literal of this place is marked.
    Marked(u32),
    /// This place was decided, and no literal is marked down to it.
    Decision(u32),
    Ground,
}

/// A walk below the place that was found, the lowest decision above all other literals that were kept, and whether there
/// is one of these.
#[derive(Debug, Drop)]
pub(crate) struct Walk {
    pub(crate) derivation: Derivation,
    pub(crate) back: u32,
    pub(crate) closed: bool,
}

/// The walk begins with the clause of this slot, which is false.
pub(crate) fn begin(alloc: Global, db: &Database, conflict: u32) -> Result<Derivation, Memory>
    requires { IsConflict db.now.watched conflict }
    ensures derived { IfOk result (IsDerived db.now.watched.trail.vars (list_of db.now)
        (lits_of (places_of db.now)) (length (places_of db.now))) }
    ensures lits { IfOk result (λ d. d.lits ≡ []) }
{
    let clause = db.clause(conflict);
    let number = db.number(conflict);
    let derivation = Derivation::begin(alloc, db.vars(), number, clause)?;
    Ok(derivation)
}

/// The place's literal is resolved by the clause of its reason.
pub(crate) fn resolve(
    derivation: &mut Derivation,
    db: &Database,
    at: u32,
    slot: u32,
) -> Result<(), Memory>
    requires at { at < length (places_of db.now) }
    requires reason { HasReason (places_of db.now) at slot }
    requires width { length derivation.old.marks ≡ 2 * db.now.watched.trail.vars }
    ensures goes { OnOk result (GoesOn db.now.watched.trail.vars (list_of db.now)
        (places_of db.now) at derivation.old derivation.new) }
    ensures lits { derivation.new.lits ≡ derivation.old.lits }
    ensures width { length derivation.new.marks ≡ length derivation.old.marks }
{
    let lit = db.place(at).lit;
    let clause = db.clause(slot);
    let number = db.number(slot);
    derivation.resolve(lit, number, clause)?;
    Ok(())
}

/// What is found first below a place, down the trail.
fn below(derivation: &Derivation, trail: &Trail, at: u32) -> Met
    requires at { at ≤ length trail.now.places }
    requires width { length derivation.now.marks ≡ 2 * trail.now.vars }
    ensures { IsMet trail.now.places derivation.now at result }
{
    for place in (0..at).rev() {
        let found = trail.place(place);
        if !derivation.skips(found.lit) {
            return Met::Marked(place);
        }
        if found.reason.is_none() {
            return Met::Decision(place);
        }
    }
    Met::Ground
}

/// The last decision below a place, if no literal down to it is marked. No place is looked at again while one that is known to
/// be marked, `other`, stands below.
fn back_below(derivation: &Derivation, trail: &Trail, at: u32, other: &mut u32) -> Option<u32>
    requires at { at ≤ length trail.now.places }
    requires width { length derivation.now.marks ≡ 2 * trail.now.vars }
    ensures { IfSome result (λ k. (k < at) × IsDecided trail.now.places k
        × AreUnmarked trail.now.places derivation.now k at) }
{
    if *other < at {
        return None;
    }
    match below(derivation, trail, at) {
        Met::Marked(place) => {
            *other = place;
            None
        }
        Met::Decision(place) => Some(place),
        Met::Ground => {
            *other = 0;
            None
        }
    }
}

/// Goes on below a place, unless it is the point that is sought.
fn point_at(
    derivation: &mut Derivation,
    db: &Database,
    order: &mut Order,
    at: u32,
    other: &mut u32,
) -> Result<Option<Point>, Memory>
    requires at { at < length (places_of db.now) }
    requires derived { IsDerived db.now.watched.trail.vars (list_of db.now)
        (lits_of (places_of db.now)) (at + 1) derivation.old }
    requires empty { derivation.old.lits ≡ [] }
    requires order { db.now.watched.trail.vars ≤ order.old }
    ensures order { order.new ≡ order.old }
    ensures point { IfOk result (IsPointedAt db.now.watched.trail.vars (list_of db.now)
        (places_of db.now) at derivation.new) }
{
    let place = db.place(at);
    if derivation.skips(place.lit) {
        return Ok(None);
    }
    order.bump(place.lit.var());
    match place.reason {
        None => {
            derivation.keep(place.lit)?;
            Ok(Some(Point {
                lit: place.lit,
                back: at,
            }))
        }
        Some(slot) => match back_below(derivation, db.trail(), at, other) {
            Some(back) => {
                derivation.keep(place.lit)?;
                Ok(Some(Point {
                    lit: place.lit,
                    back,
                }))
            }
            None => {
                resolve(derivation, db, at, slot)?;
                Ok(None)
            }
        },
    }
}

/// Walks down until the only marked literal since the last decision is found, and keeps it.
fn first_point(
    derivation: &mut Derivation,
    db: &Database,
    order: &mut Order,
) -> Result<Option<Point>, Memory>
    requires derived { IsDerived db.now.watched.trail.vars (list_of db.now)
        (lits_of (places_of db.now)) (length (places_of db.now)) derivation.old }
    requires empty { derivation.old.lits ≡ [] }
    requires order { db.now.watched.trail.vars ≤ order.old }
    ensures order { order.new ≡ order.old }
    ensures walked { IsWalked db.now.watched.trail.vars (lits_of (places_of db.now)) }
    ensures point { IfOk result (IsPointedAt db.now.watched.trail.vars (list_of db.now)
        (places_of db.now) 0 derivation.new) }
{
    let mut other = db.trail().len();
    for at in (0..db.trail().len()).rev() {
        if let Some(point) = point_at(derivation, db, order, at, &mut other)? {
            return Ok(Some(point));
        }
    }
    Ok(None)
}

impl Walk {
    /// The reason by which the literal of a place is resolved: below the first decision each is, above it one that brings no
    /// new literal.
    fn resolves_by(&self, db: &Database, at: u32, ground: u32) -> Option<u32>
        requires at { at < length (places_of db.now) }
        requires width { length self.now.derivation.marks ≡ 2 * db.now.watched.trail.vars }
        ensures { IfSome result (HasReason (places_of db.now) at) }
    {
        let place = db.place(at);
        match place.reason {
            None => None,
            Some(slot) => {
                if at < ground || is_redundant(&self.derivation, db.clause(slot), place.lit) {
                    Some(slot)
                } else {
                    None
                }
            }
        }
    }

    /// Goes on below a place.
    fn lower(
        &mut self,
        db: &Database,
        order: &mut Order,
        at: u32,
        ground: u32,
    ) -> Result<(), Memory>
        requires at { at < length (places_of db.now) }
        requires width { length self.old.derivation.marks ≡ 2 * db.now.watched.trail.vars }
        requires order { db.now.watched.trail.vars ≤ order.old }
        ensures order { order.new ≡ order.old }
        ensures lower { OnOk result ((l : ℕ)
            → IsLowering db.now.watched.trail.vars (list_of db.now)
            (places_of db.now) l (at + 1) self.old
            → IsLowering db.now.watched.trail.vars (list_of db.now)
            (places_of db.now) l at self.new) }
    {
        let place = db.place(at);
        if self.derivation.skips(place.lit) {
            if place.reason.is_none() && !self.closed {
                self.back = at;
            }
            return Ok(());
        }
        order.bump(place.lit.var());
        match self.resolves_by(db, at, ground) {
            Some(slot) => {
                resolve(&mut self.derivation, db, at, slot)?;
                Ok(())
            }
            None => {
                self.derivation.keep(place.lit)?;
                self.closed = true;
                Ok(())
            }
        }
    }
}

/// Walks down from the decision below the literal that was found.
fn lowered(
    alloc: Global,
    db: &Database,
    order: &mut Order,
    derivation: Derivation,
    point: Point,
) -> Result<Learnt, Memory>
    requires point { IsPoint db.now.watched.trail.vars (list_of db.now)
        (places_of db.now) derivation point }
    requires walked { IsWalked db.now.watched.trail.vars (lits_of (places_of db.now)) }
    requires order { db.now.watched.trail.vars ≤ order.old }
    ensures order { order.new ≡ order.old }
    ensures accepted { IfOk result (λ learnt. refusal db.now.watched.trail.vars
        (list_of db.now) learnt.line.clause learnt.line.hints ≡ None) }
    ensures learnt { IfOk result (λ learnt.
        IsLearntAt (places_of db.now) learnt.line.clause learnt.asserts) }
{
    let mut walk = Walk {
        derivation,
        back: point.back,
        closed: false,
    };
    let ground = order.ground(db.trail());
    for at in (0..point.back).rev() {
        walk.lower(db, order, at, ground)?;
    }
    let Walk {
        derivation,
        back,
        closed: _,
    } = walk;
    let line = derivation.finish(alloc)?;
    let lit = point.lit.not();
    Ok(Learnt {
        line,
        asserts: Some(Point { lit, back }),
    })
}

/// What is learnt from the clause of this slot, which is false.
pub(crate) fn analyze(
    alloc: Global,
    db: &Database,
    order: &mut Order,
    conflict: u32,
) -> Result<Learnt, Memory>
    requires conflict { IsConflict db.now.watched conflict }
    requires order { db.now.watched.trail.vars ≤ order.old }
    ensures order { order.new ≡ order.old }
    ensures accepted { IfOk result (λ learnt. refusal db.now.watched.trail.vars
        (list_of db.now) learnt.line.clause learnt.line.hints ≡ None) }
    ensures learnt { IfOk result (λ learnt.
        IsLearntAt (places_of db.now) learnt.line.clause learnt.asserts) }
{
    let mut derivation = begin(alloc, db, conflict)?;
    order.fade();
    match first_point(&mut derivation, db, order)? {
        Some(point) => lowered(alloc, db, order, derivation, point),
        None => {
            let line = derivation.finish(alloc)?;
            Ok(Learnt {
                line,
                asserts: None,
            })
        }
    }
}
