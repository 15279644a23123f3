//! Unit propagation along hints. What is known is a row with one bit a literal; it is undone by going over the same
//! literals again, so a line costs only the clauses that its hints name.

ghost use Rattle.std.specs.Prelude.{◌≡◌, ℕ, ◌+◌, ◌^◌, ◌<◌, ◌∷◌, length, slice_get, All};
ghost use Rattle.ja_base.specs.Trails.{open_lits};
ghost use Rattle.refute_check.specs.Lines.{found_of, found_at, are_false, outcome, assumed, withdrawn, cleared, cleared_at, released};
ghost use Rattle.refute_check.specs.Spans.{Spans, IfForces};

use crate::found::Found;
use crate::numbered::Numbered;
use ja_base::Lit;

pub(crate) fn all_false(values: &[bool], lits: &[Lit]) -> bool
    requires { Spans (length values.now) lits.now }
    ensures { result ≡ are_false values.now lits.now }
{
    for lit in lits {
        if !values[lit.not().number() as usize] {
            return false;
        }
    }
    true
}

/// What is known of a clause of which this literal is the first that is not false.
#[tactic(auto, using(crate::proofs::ScanLemmas::no_open, crate::proofs::ScanLemmas::some_open, crate::proofs::ScanLemmas::true_open))]
fn scan_open(values: &[bool], lit: Lit, later: &[Lit]) -> Found
    requires lit { lit < length values.now }
    requires later { Spans (length values.now) later.now }
    ensures value { result ≡ found_of values.now (lit ∷ open_lits values.now later.now) }
    ensures within { IfForces result (λ l. l < length values.now) }
{
    if values[lit.number() as usize] {
        return Found::Other;
    }
    if all_false(values, later) {
        Found::Forces(lit.number())
    } else {
        Found::Other
    }
}

/// What is known of a clause of these literals.
pub fn scan(values: &[bool], lits: &[Lit]) -> Found
    requires { Spans (length values.now) lits.now }
    ensures value { result ≡ found_of values.now (open_lits values.now lits.now) }
    ensures within { IfForces result (λ l. l < length values.now) }
{
    for (at, lit) in lits.iter().enumerate() {
        if !values[lit.not().number() as usize] {
            return scan_open(values, *lit, &lits[at + 1..]);
        }
    }
    Found::False
}

/// What is known of the clause that a hint names.
pub(crate) fn scan_at(values: &[bool], clauses: &Numbered, hint: u32) -> Found
    requires { All (Spans (length values.now)) clauses.now.list }
    ensures value { result ≡ found_at values.now (slice_get clauses.now.list hint) }
    ensures within { IfForces result (λ l. l < length values.now) }
{
    match clauses.get(hint) {
        Some(clause) => scan(values, clause.lits()),
        None => Found::Other,
    }
}

/// Takes the hints in order, and answers which one is refused, if one is.
pub(crate) fn follow(values: &mut [bool], clauses: &Numbered, hints: &[u32]) -> Option<u32>
    requires hints { length hints.now < 2 ^ 32 }
    requires clauses { All (Spans (length values.old)) clauses.now.list }
    ensures row { values.new ≡ (outcome clauses.now.list hints.now values.old 0).0 }
    ensures refused { result ≡ (outcome clauses.now.list hints.now values.old 0).1 }
{
    for (at, hint) in hints.iter().enumerate() {
        match scan_at(values, clauses, *hint) {
            Found::Forces(lit) => values[lit as usize] = true,
            Found::False if at + 1 == hints.len() => return None,
            Found::False | Found::Other => return Some(at as u32),
        }
    }
    Some(hints.len() as u32)
}

/// Makes each literal false.
pub fn assume(values: &mut [bool], lits: &[Lit])
    requires { Spans (length values.old) lits.now }
    ensures { values.new ≡ assumed lits.now values.old }
{
    for lit in lits {
        values[lit.not().number() as usize] = true;
    }
}

/// Takes back what `assume` did.
pub(crate) fn withdraw(values: &mut [bool], lits: &[Lit])
    requires { Spans (length values.old) lits.now }
    ensures { values.new ≡ withdrawn lits.now values.old }
{
    for lit in lits {
        values[lit.not().number() as usize] = false;
    }
}

/// Makes no literal true.
pub(crate) fn clear(values: &mut [bool], lits: &[Lit])
    requires { Spans (length values.old) lits.now }
    ensures { values.new ≡ cleared lits.now values.old }
{
    for lit in lits {
        values[lit.number() as usize] = false;
    }
}

/// Makes no literal of a hinted clause true.
pub(crate) fn clear_at(values: &mut [bool], clauses: &Numbered, hint: u32)
    requires { All (Spans (length values.old)) clauses.now.list }
    ensures { values.new ≡ cleared_at (slice_get clauses.now.list hint) values.old }
{
    if let Some(clause) = clauses.get(hint) {
        clear(values, clause.lits());
    }
}

/// Takes back what `follow` did.
pub(crate) fn release(values: &mut [bool], clauses: &Numbered, hints: &[u32])
    requires { All (Spans (length values.old)) clauses.now.list }
    ensures { values.new ≡ released clauses.now.list hints.now values.old }
{
    for hint in hints {
        clear_at(values, clauses, *hint);
    }
}
