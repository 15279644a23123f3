//! What is done where propagation ended quiet: a decision, if one is left.

ghost use Rattle.std.specs.Prelude.{◌≡◌, ℕ, ◌<◌, All, Contains, Some, option_copied, slice_get, ◌≤◌};
ghost use Rattle.ja_base.specs.Clauses.{IsBelow};
ghost use Rattle.ja_base.specs.Literals.{bit, variable};
ghost use Rattle.sat_plain.specs.Trails.{lits_of, IsAssigned};
ghost use Rattle.sat_watch.specs.Steps.{IsQuiet};
ghost use Rattle.sat_cdcl.specs.Files.{places_of, list_of, IsKept};
ghost use Rattle.sat_cdcl.specs.Turns.{IsUnderWay, IsAdvanced};

use crate::assume::{Next, next_assumed};
use crate::database::Database;
use crate::decide::Order;
use crate::query::Query;
use ja_base::{Lit, Var};
use sat_plain::Trail;
use sat_watch::Step;

/// What is left to do.
#[derive(Clone, Copy, Debug)]
pub(crate) enum Move {
    /// A literal was decided.
    Decided(Step),
    /// Each variable has a value, or each that is given, and each assumed literal is true.
    Full,
    /// The negation of the literal of this place is assumed.
    Falsified(u32),
}

/// The place of a literal that is true, sought from the last one down.
fn place_of(trail: &Trail, lit: Lit) -> u32
    requires { Contains (lits_of trail.now.places) lit }
    ensures at { slice_get (lits_of trail.now.places) result ≡ Some lit }
    ensures is { IsAssigned trail.now }
{
    for at in (0..trail.len()).rev() {
        if trail.place(at).lit == lit {
            return at;
        }
    }
    unreachable!()
}

/// Decides a variable that is not assumed.
fn decide(
    db: &mut Database,
    order: &mut Order,
    query: &mut Query,
    under: &[Lit],
    among: Option<&[Var]>,
) -> Move
    requires order { db.old.watched.trail.vars ≤ order.old }
    requires assumed { All (Contains (lits_of (places_of db.old))) under.now }
    requires under_way { IsUnderWay under.now db.old query.old }
    ensures order { order.new ≡ order.old }
    ensures kept { IsKept db.old db.new }
    ensures lines { query.new.lines ≡ query.old.lines }
    ensures list { list_of db.new ≡ list_of db.old }
    ensures advanced { IsAdvanced under.now (option_copied among.entry) db.old query.old
        db.new query.new result }
{
    match order.next(db.trail(), among) {
        Some(lit) => {
            let free = query.free.unwrap_or(db.trail().len());
            query.free = Some(free);
            query.cursor = under.len();
            Move::Decided(db.assign(lit))
        }
        None => Move::Full,
    }
}

/// Decides the next literal that is assumed, or else another; one of the variables that are given, if any are.
pub(crate) fn advance(
    db: &mut Database,
    order: &mut Order,
    query: &mut Query,
    under: &[Lit],
    among: Option<&[Var]>,
) -> Move
    requires order { db.old.watched.trail.vars ≤ order.old }
    requires under { IsBelow db.old.watched.trail.vars under.now }
    requires under_way { IsUnderWay under.now db.old query.old }
    ensures order { order.new ≡ order.old }
    ensures kept { IsKept db.old db.new }
    ensures lines { query.new.lines ≡ query.old.lines }
    ensures list { list_of db.new ≡ list_of db.old }
    ensures advanced { IsAdvanced under.now (option_copied among.entry) db.old query.old
        db.new query.new result }
{
    match next_assumed(db.trail(), under, &mut query.cursor) {
        Next::True => decide(db, order, query, under, among),
        Next::Open(lit) => Move::Decided(db.assign(lit)),
        Next::False(lit) => Move::Falsified(place_of(db.trail(), lit.not())),
    }
}
