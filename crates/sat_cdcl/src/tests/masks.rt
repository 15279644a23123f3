//! Clauses and rows as masks, for tests.

ghost use Rattle.std.specs.Prelude.{IfOk};
ghost use Rattle.ja_base.specs.Clauses.{IsBelow};

use ja_base::{Clause, Lit, Lits, Memory, Row};
use std::alloc::Global;

// Literals over the variables 0 to 11 are bits of a mask, bit l for the literal l.
pub(crate) const VARS: u32 = 12;

pub(crate) fn lits_of(alloc: Global, mask: u64) -> Result<Lits, Memory>
    ensures { IfOk result (IsBelow 12) }
{
    let mut lits = Lits::new(alloc);
    for lit in 0..2 * VARS {
        if mask >> lit & 1 == 1 {
            lits.push(Lit(lit))?;
        }
    }
    Ok(lits)
}

pub(crate) fn clause_of(alloc: Global, mask: u64) -> Result<Clause, Memory>
    ensures { IfOk result (IsBelow 12) }
{
    let lits = lits_of(alloc, mask)?;
    let clause = Clause::from_lits(alloc, lits.as_slice())?;
    Ok(clause)
}

pub(crate) fn mask_of(lits: &[Lit]) -> u64 {
    let mut mask = 0;
    for lit in lits {
        mask |= 1 << (lit.number() % 64);
    }
    mask
}

pub(crate) fn row_mask(row: &Row) -> u64 {
    let mut mask = 0;
    for var in 0..row.len() {
        let lit = 2 * u64::from(var) + u64::from(!row.get(var));
        mask |= 1 << (lit % 64);
    }
    mask
}

pub(crate) fn holds(clauses: &[u64], under: u64, row: u64) -> bool {
    for clause in clauses {
        if clause & row == 0 {
            return false;
        }
    }
    under & row == under
}

/// Counts through the rows: bit v of the number is that of the variable v.
pub(crate) fn has_row(clauses: &[u64], under: u64) -> bool {
    for number in 0..1u64 << VARS {
        let mut row = 0;
        for var in 0..VARS {
            row |= (2 >> (number >> var & 1)) << (2 * var);
        }
        if holds(clauses, under, row) {
            return true;
        }
    }
    false
}
