//! The cube of one latch row.

ghost use Rattle.std.specs.Prelude.{◌≡◌, ◌+◌, ◌<◌, length, IfOk};
ghost use Rattle.ja_base.specs.Literals.{variable};
ghost use Rattle.ja_base.specs.Clauses.{IsSetOf};
ghost use Rattle.ja_base.specs.Valuation.{input_row};
ghost use Rattle.aig_model.specs.Netlist.{circuit};
ghost use Rattle.ic3_general.specs.Cubes.{unmet_literal, unmet_literals};

use aig_model::{Design, Latch};
use ja_base::{Clause, Lit, Lits, Memory, Row};
use std::alloc::Global;

/// The literal over the latch that is 0 in these values.
pub(crate) fn unmet_literal(latch: Latch, vals: &Row) -> Lit
    requires { variable latch.lit < length vals.now }
    ensures { result ≡ unmet_literal vals.now latch }
{
    if vals.get(latch.lit.var().number()) {
        latch.lit.not()
    } else {
        latch.lit
    }
}

fn unmet_literals(alloc: Global, design: &Design, vals: &Row) -> Result<Lits, Memory>
    requires { length vals.now ≡ design.now.vars + 1 }
    ensures { IfOk result (λ lits. lits ≡ unmet_literals design.now vals.now) }
{
    let mut lits = Lits::new(alloc);
    for at in 0..design.latches() {
        lits.push(unmet_literal(design.latch(at), vals))?;
    }
    Ok(lits)
}

/// The clause that excludes just the latch row of these values.
pub(crate) fn row_clause(alloc: Global, design: &Design, vals: &Row) -> Result<Clause, Memory>
    requires { length vals.now ≡ design.now.vars + 1 }
    ensures { IfOk result (IsSetOf (unmet_literals design.now vals.now)) }
{
    let lits = unmet_literals(alloc, design, vals)?;
    let clause = Clause::from_lits(alloc, lits.as_slice())?;
    Ok(clause)
}

/// The input row of these values.
pub(crate) fn input_of(alloc: Global, design: &Design, vals: &Row) -> Result<Row, Memory>
    requires { length vals.now ≡ design.now.vars + 1 }
    ensures { IfOk result (λ row. row ≡ input_row (circuit design.now) vals.now) }
{
    let mut row = Row::zeros(alloc, design.inputs())?;
    for at in 0..design.inputs() {
        row.set(at, vals.get(design.input(at).var().number()));
    }
    Ok(row)
}
