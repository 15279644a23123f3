//! The literals that lifting keeps at 1.

ghost use Rattle.std.specs.Prelude.{◌≡◌, ◌+◌, ◌<◌, ◌++◌, ◌∷◌, ℕ, Bool, List, true, false, length, slice_index, IfOk, OnOk};
ghost use Rattle.ja_base.specs.Literals.{variable};
ghost use Rattle.ja_base.specs.Clauses.{IsBelow};
ghost use Rattle.ja_project.specs.CodedClauses.{held_literals, held_literals_of, negated_next, next_literal, with_sign_of};
ghost use Rattle.ic3_general.specs.Aims.{respecting};

use aig_model::Design;
use ja_base::{Clause, Lit, Lits, Memory, Row};
use ja_project::Coded;
use std::alloc::Global;

fn with_sign_of(lit: Lit, next: Lit) -> Lit
    ensures { result ≡ with_sign_of lit next }
{
    if lit.is_neg() { next.not() } else { next }
}

// The literals of a chain's clause may be over no latch, and so are looked for.
fn next_of(design: &Design, lit: Lit) -> Lit
    ensures { result ≡ next_literal design.now.latches lit }
{
    for at in 0..design.latches() {
        let latch = design.latch(at);
        if latch.lit.var().number() == lit.var().number() {
            return with_sign_of(lit, latch.next);
        }
    }
    Lit(0)
}

fn push_nexts(design: &Design, clause: &Clause, lits: &mut Lits) -> Result<(), Memory>
    ensures { OnOk result (lits.new ≡ lits.old ++ negated_next design.now clause.now) }
{
    for lit in clause.lits() {
        lits.push(next_of(design, *lit).not())?;
    }
    Ok(())
}

fn push_constraints(design: &Design, lits: &mut Lits) -> Result<(), Memory>
    ensures { OnOk result (lits.new ≡ lits.old ++ design.now.constraints) }
{
    for at in 0..design.constraints() {
        lits.push(design.constraint(at))?;
    }
    Ok(())
}

fn push_good(coded: &Coded, respect: &Row, prop: u32, lits: &mut Lits) -> Result<(), Memory>
    requires within { prop < length coded.now.design.bads }
    requires wide { length respect.now ≡ length coded.now.design.bads }
    ensures { OnOk result (lits.new
        ≡ lits.old ++ held_literals_of (respecting coded.now respect.now) prop) }
{
    if respect.get(prop) {
        lits.push(coded.bad(prop).not())?;
    }
    Ok(())
}

fn push_respected(coded: &Coded, respect: &Row, lits: &mut Lits) -> Result<(), Memory>
    requires { length respect.now ≡ length coded.now.design.bads }
    ensures { OnOk result
        (lits.new ≡ lits.old ++ held_literals (respecting coded.now respect.now)) }
{
    for prop in 0..coded.task().design().props() {
        push_good(coded, respect, prop, lits)?;
    }
    Ok(())
}

/// That the next latch row falsifies the clause, and that the step meets the constraints and breaks no property that is to be
/// respected.
pub(crate) fn step_target(
    alloc: Global,
    coded: &Coded,
    respect: &Row,
    clause: &Clause,
) -> Result<Lits, Memory>
    requires { length respect.now ≡ length coded.now.design.bads }
    ensures value { IfOk result (λ lits. lits ≡ (negated_next coded.now.design clause.now
        ++ coded.now.design.constraints)
        ++ held_literals (respecting coded.now respect.now)) }
    ensures below { IfOk result (IsBelow (coded.now.design.vars + 1)) }
{
    let design = coded.task().design();
    let mut lits = Lits::new(alloc);
    push_nexts(design, clause, &mut lits)?;
    push_constraints(design, &mut lits)?;
    push_respected(coded, respect, &mut lits)?;
    Ok(lits)
}

/// That the step breaks the property and meets the constraints.
pub(crate) fn bad_target(alloc: Global, coded: &Coded, prop: u32) -> Result<Lits, Memory>
    requires { prop < length coded.now.design.bads }
    ensures value { IfOk result (λ lits. lits
        ≡ slice_index coded.now.design.bads prop ∷ coded.now.design.constraints) }
    ensures below { IfOk result (IsBelow (coded.now.design.vars + 1)) }
{
    let mut lits = Lits::new(alloc);
    lits.push(coded.bad(prop))?;
    push_constraints(coded.task().design(), &mut lits)?;
    Ok(lits)
}
