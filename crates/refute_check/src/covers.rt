//! Whether literals contradict a list of clauses at once.

ghost use Rattle.std.specs.Prelude.{◌≡◌};
ghost use Rattle.std.specs.Bool.{OnTrue};
ghost use Rattle.std.specs.List.{list_any};
ghost use Rattle.std.specs.List.Sorted.{IsStrictlyIncreasing};
ghost use Rattle.ja_base.specs.Literals.{negated};
ghost use Rattle.ja_base.specs.Clauses.{has_literal};
ghost use Rattle.refute_check.specs.Refuted.{is_covered, is_false_under, has_both_signs};

use ja_base::{Clause, Lit};

/// From the last clause down, since a proof ends with the one that is sought. Literals that ascend are sought by halves.
pub(crate) fn covers(clauses: &[Clause], under: &[Lit]) -> bool
    ensures { result ≡ is_covered clauses.now under.now }
{
    let ascends = ascends(under);
    some_false(clauses, under, ascends) || both_signs(under, ascends)
}

fn ascends(lits: &[Lit]) -> bool
    ensures { OnTrue result (IsStrictlyIncreasing lits.now) }
{
    for at in 1..lits.len() {
        if lits[at - 1] >= lits[at] {
            return false;
        }
    }
    true
}

fn some_false(clauses: &[Clause], under: &[Lit], ascends: bool) -> bool
    requires { OnTrue ascends (IsStrictlyIncreasing under.now) }
    ensures { result ≡ list_any (is_false_under under.now) clauses.now }
{
    for at in (0..clauses.len()).rev() {
        let clause = &clauses[at];
        if is_false(clause.lits(), under, ascends) {
            return true;
        }
    }
    false
}

fn is_false(lits: &[Lit], under: &[Lit], ascends: bool) -> bool
    requires { OnTrue ascends (IsStrictlyIncreasing under.now) }
    ensures { result ≡ is_false_under under.now lits.now }
{
    for lit in lits {
        if !has(under, ascends, lit.not()) {
            return false;
        }
    }
    true
}

fn both_signs(under: &[Lit], ascends: bool) -> bool
    requires { OnTrue ascends (IsStrictlyIncreasing under.now) }
    ensures { result ≡ has_both_signs under.now }
{
    for lit in under {
        if has(under, ascends, lit.not()) {
            return true;
        }
    }
    false
}

fn has(lits: &[Lit], ascends: bool, lit: Lit) -> bool
    requires { OnTrue ascends (IsStrictlyIncreasing lits.now) }
    ensures { result ≡ has_literal lits.now lit }
{
    if ascends {
        stands_in_order(lits, lit)
    } else {
        stands_somewhere(lits, lit)
    }
}

fn stands_in_order(lits: &[Lit], lit: Lit) -> bool
    requires { IsStrictlyIncreasing lits.now }
    ensures { result ≡ has_literal lits.now lit }
{
    lits.binary_search(&lit).is_ok()
}

fn stands_somewhere(lits: &[Lit], lit: Lit) -> bool
    ensures { result ≡ has_literal lits.now lit }
{
    for other in lits {
        if *other == lit {
            return true;
        }
    }
    false
}
