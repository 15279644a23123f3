//! What stands before the search.

ghost use Rattle.std.specs.Prelude.{◌≡◌, ℕ, ◌^◌, ◌<◌, ◌≤◌, List, [], ◌∷◌, ◌++◌, false, option_copied, IfOk, OnOk};
ghost use Rattle.ja_base.specs.Clauses.{IsBelow};
ghost use Rattle.ja_base.specs.Literals.{bit, variable, negated};
ghost use Rattle.sat_plain.specs.Answer.{clauses_of};
ghost use Rattle.sat_plain.specs.Turns.{IsExtended};
ghost use Rattle.sat_plain.specs.Starts.{AreAssumed, IsAssumed, IsOpened, OnReady};

use crate::query::Query;
use crate::trail::Trail;
use ja_base::{Clause, Lit, Lits, Memory};
use refute_check::{Lines, Numbered, Refuted};
use std::alloc::Global;

/// What a query starts with.
#[derive(Debug, Drop)]
pub(crate) enum Opening {
    Ready(Query),
    /// The literals that are assumed contradict each other.
    Contradicts(Refuted),
    Memory,
}

/// The extra clause takes the next number, where it is given.
fn put_extra(alloc: Global, clauses: &mut Numbered, extra: Option<&Clause>) -> Result<(), Memory>
    ensures ok { OnOk result
        (clauses.new.list ≡ clauses_of clauses.old.list (option_copied extra.entry)) }
    ensures store { IsExtended clauses.old clauses.new }
{
    match extra {
        Some(clause) => {
            let clause = clause.copy(alloc)?;
            clauses.reserve(1)?;
            clauses.put(clause);
            Ok(())
        }
        None => Ok(()),
    }
}

/// Decides the literal, unless it is true already.
fn assume_one(trail: &mut Trail, lit: Lit)
    requires below { variable lit < trail.old.vars }
    requires free { bit trail.old.values (negated lit) ≡ false }
    ensures vars { trail.new.vars ≡ trail.old.vars }
    ensures assumed { (under : List ℕ) → AreAssumed under trail.old.places
        → AreAssumed (under ++ lit ∷ []) trail.new.places }
{
    if trail.is_true(lit) {
        return;
    }
    trail.push(lit, None);
}

/// Decides each of these literals, and tells one of which the other sign stands there too.
fn assume_all(trail: &mut Trail, under: &[Lit]) -> Option<Lit>
    requires empty { trail.old.places ≡ [] }
    requires under { IsBelow trail.old.vars under.now }
    ensures vars { trail.new.vars ≡ trail.old.vars }
    ensures assumed { IsAssumed under.now trail.new.places result }
{
    for lit in under {
        if trail.is_true(lit.not()) {
            return Some(*lit);
        }
        assume_one(trail, *lit);
    }
    None
}

/// Both signs of a literal, which need no line.
fn contradiction(alloc: Global, lit: Lit) -> Result<Refuted, Memory>
    ensures core { IfOk result (λ refuted. refuted.core ≡ lit ∷ negated lit ∷ []) }
    ensures lines { IfOk result (λ refuted. refuted.lines ≡ []) }
{
    let mut core = Lits::new(alloc);
    core.push(lit)?;
    core.push(lit.not())?;
    Ok(Refuted {
        core,
        lines: Lines::new(alloc),
    })
}

/// The literals of `under` become true.
fn assumed_query(alloc: Global, mut trail: Trail, under: &[Lit]) -> Opening
    requires empty { trail.places ≡ [] }
    requires under { IsBelow trail.vars under.now }
    ensures { IsOpened trail.vars under.now result }
{
    match assume_all(&mut trail, under) {
        Some(lit) => match contradiction(alloc, lit) {
            Ok(refuted) => Opening::Contradicts(refuted),
            Err(_) => Opening::Memory,
        },
        None => Opening::Ready(Query {
            assumed: trail.len(),
            trail,
            lines: Lines::new(alloc),
        }),
    }
}

/// The extra clause joins the list, and the literals of `under` become true.
pub(crate) fn start(
    alloc: Global,
    vars: u32,
    clauses: &mut Numbered,
    under: &[Lit],
    extra: Option<&Clause>,
) -> Opening
    requires vars { vars ≤ 2 ^ 31 }
    requires under { IsBelow vars under.now }
    ensures opened { IsOpened vars under.now result }
    ensures list { OnReady result
        (clauses.new.list ≡ clauses_of clauses.old.list (option_copied extra.entry)) }
    ensures store { IsExtended clauses.old clauses.new }
{
    match put_extra(alloc, clauses, extra) {
        Err(_) => Opening::Memory,
        Ok(()) => match Trail::new(alloc, vars) {
            Err(_) => Opening::Memory,
            Ok(trail) => assumed_query(alloc, trail, under),
        },
    }
}
