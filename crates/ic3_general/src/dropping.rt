//! From the values of a step to the least part of its latch row that makes target literals 1: a guess first, then one literal
//! after another is dropped.

ghost use Rattle.std.specs.Prelude.{◌≡◌, ◌+◌, ◌*◌, ◌<◌, ◌++◌, ◌∷◌, [], ℕ, Bool, List, true, false, length, All, IfOk, OnOk};
ghost use Rattle.std.specs.Bool.{OnTrue, OnFalse};
ghost use Rattle.ja_base.specs.Literals.{value, variable};
ghost use Rattle.ja_base.specs.Clauses.{IsBelow};
ghost use Rattle.ja_base.specs.Valuation.{IsValuation, latch_row, input_row};
ghost use Rattle.aig_model.specs.Netlist.{circuit, IsSound};
ghost use Rattle.ja_project.specs.Latches.{is_foreign, is_over_latch};
ghost use Rattle.ic3_general.specs.Cubes.{IsOutside};
ghost use Rattle.ic3_general.specs.Lifting.{HasLeaves, IsSureRow, MakesSure, IsLeast};
ghost use Rattle.ic3_general.specs.Dropping.{IsAmongUnmet, IsDropped, IsKept, IsLifting};

use crate::justifying::justified;
use crate::rows::row_clause;
use crate::sure::{are_sure, literal_row, settle, sure_into};
use aig_model::Design;
use ja_base::{Clause, Lit, Lits, Memory, Row};
use std::alloc::Global;

/// The guess where it makes each target literal surely 1, else the clause of the whole row. The bits of its literals are in
/// `sure`.
fn first_clause(
    alloc: Global,
    design: &Design,
    vals: &Row,
    target: &[Lit],
    sure: &mut Row,
) -> Result<Clause, Memory>
    requires step { IsValuation (circuit design.now) (latch_row (circuit design.now) vals.now)
        (input_row (circuit design.now) vals.now) vals.now }
    requires below { IsBelow (design.now.vars + 1) target.now }
    requires met { All (λ l. value vals.now l ≡ true) target.now }
    requires sure { length sure.old ≡ 2 * (design.now.vars + 1) }
    ensures among { IfOk result (IsAmongUnmet design.now vals.now) }
    ensures leaves { IfOk result
        (λ clause. HasLeaves (circuit design.now) vals.now clause sure.new) }
    ensures makes { IfOk result
        (λ clause. MakesSure (circuit design.now) vals.now target.now clause) }
    ensures sound { IsSound design.now }
{
    let hint = justified(alloc, design, vals, target)?;
    sure_into(design, vals, &hint, sure);
    if are_sure(sure, target) {
        return Ok(hint);
    }
    let whole = row_clause(alloc, design, vals)?;
    sure_into(design, vals, &whole, sure);
    Ok(whole)
}

/// Whether the literal can be dropped. Its bit is 0 from then on if it can.
fn drops(design: &Design, target: &[Lit], lit: Lit, sure: &mut Row) -> bool
    requires width { length sure.old ≡ 2 * (design.now.vars + 1) }
    requires lit { variable lit < design.now.vars + 1 }
    requires below { IsBelow (design.now.vars + 1) target.now }
    ensures width { length sure.new ≡ length sure.old }
    ensures dropped { OnTrue result
        (IsDropped (circuit design.now) target.now lit sure.old sure.new) }
    ensures kept { OnFalse result
        (IsKept (circuit design.now) target.now lit sure.old sure.new) }
{
    let at = lit.not().number();
    sure.set(at, false);
    settle(design, sure);
    let enough = are_sure(sure, target);
    if enough {
        return true;
    }
    sure.set(at, true);
    false
}

/// Keeps the literal if it is needed.
fn try_literal(
    design: &Design,
    target: &[Lit],
    lit: Lit,
    sure: &mut Row,
    kept: &mut Lits,
) -> Result<(), Memory>
    requires width { length sure.old ≡ 2 * (design.now.vars + 1) }
    requires lit { variable lit < design.now.vars + 1 }
    requires below { IsBelow (design.now.vars + 1) target.now }
    ensures width { length sure.new ≡ length sure.old }
    ensures lifting { OnOk result ((values : List Bool) (first rest : List ℕ)
        → IsValuation (circuit design.now) (latch_row (circuit design.now) values)
        (input_row (circuit design.now) values) values
        → is_over_latch (circuit design.now) lit ≡ true
        → IsLifting (circuit design.now) values target.now first kept.old (lit ∷ rest) sure.old
        → IsLifting (circuit design.now) values target.now first kept.new rest sure.new) }
{
    if drops(design, target, lit, sure) {
        return Ok(());
    }
    kept.push(lit)?;
    Ok(())
}

/// The literals of the clause that are needed, each tried in turn.
fn needed_literals(
    alloc: Global,
    design: &Design,
    vals: &Row,
    target: &[Lit],
    first: &Clause,
    sure: &mut Row,
) -> Result<Lits, Memory>
    requires step { IsValuation (circuit design.now) (latch_row (circuit design.now) vals.now)
        (input_row (circuit design.now) vals.now) vals.now }
    requires below { IsBelow (design.now.vars + 1) target.now }
    requires own { is_foreign (circuit design.now) first.now ≡ false }
    requires leaves { HasLeaves (circuit design.now) vals.now first.now sure.old }
    requires makes { MakesSure (circuit design.now) vals.now target.now first.now }
    ensures { IfOk result (λ kept.
        IsLifting (circuit design.now) vals.now target.now first.now kept [] sure.new) }
{
    let _vars = design.vars();
    let mut kept = Lits::new(alloc);
    for lit in first.lits() {
        try_literal(design, target, *lit, sure, &mut kept)?;
    }
    Ok(kept)
}

/// The clause of a cube around the latch row of a step, from each row of which the inputs of the step make each target literal
/// 1. No literal of it can be dropped by the three-valued rule.
pub fn lift(alloc: Global, design: &Design, vals: &Row, target: &[Lit]) -> Result<Clause, Memory>
    requires step { IsValuation (circuit design.now) (latch_row (circuit design.now) vals.now)
        (input_row (circuit design.now) vals.now) vals.now }
    requires below { IsBelow (design.now.vars + 1) target.now }
    requires met { All (λ l. value vals.now l ≡ true) target.now }
    ensures own { IfOk result (λ clause. is_foreign (circuit design.now) clause ≡ false) }
    ensures around { IfOk result (λ clause. IsOutside (circuit design.now) clause
        (latch_row (circuit design.now) vals.now)) }
    ensures sure { IfOk result (MakesSure (circuit design.now) vals.now target.now) }
    ensures least { IfOk result (IsLeast (circuit design.now) vals.now target.now) }
{
    let mut sure = literal_row(alloc, design)?;
    let first = first_clause(alloc, design, vals, target, &mut sure)?;
    let kept = needed_literals(alloc, design, vals, target, &first, &mut sure)?;
    let clause = Clause::from_lits(alloc, kept.as_slice())?;
    Ok(clause)
}
