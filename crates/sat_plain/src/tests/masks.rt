//! Clauses and rows as masks, for tests.

ghost use Rattle.std.specs.Prelude.{IfOk};
ghost use Rattle.ja_base.specs.Clauses.{IsBelow};

use ja_base::{Clause, Lit, Lits, Memory, Row};
use std::alloc::Global;

// Literals over the variables 0 to 2 are bits of a mask, bit l for the literal l.
pub(crate) const VARS: u32 = 3;

/// Every row over them, as the mask of the literals that are 1.
const ROWS: [u64; 8] = [
    0b101010, 0b101001, 0b100110, 0b100101, 0b011010, 0b011001, 0b010110, 0b010101,
];

pub(crate) fn lits_of(alloc: Global, mask: u64) -> Result<Lits, Memory>
    ensures { IfOk result (IsBelow 3) }
{
    let mut lits = Lits::new(alloc);
    for lit in 0..6 {
        if mask >> lit & 1 == 1 {
            lits.push(Lit(lit))?;
        }
    }
    Ok(lits)
}

pub(crate) fn clause_of(alloc: Global, mask: u64) -> Result<Clause, Memory>
    ensures { IfOk result (IsBelow 3) }
{
    let lits = lits_of(alloc, mask)?;
    let clause = Clause::from_lits(alloc, lits.as_slice())?;
    Ok(clause)
}

pub(crate) fn mask_of(lits: &[Lit]) -> u64 {
    let mut mask = 0;
    for lit in lits {
        mask |= 1 << (lit.number() % 64);
    }
    mask
}

pub(crate) fn row_mask(row: &Row) -> u64 {
    let mut mask = 0;
    for var in 0..row.len() {
        let lit = 2 * u64::from(var) + u64::from(!row.get(var));
        mask |= 1 << (lit % 64);
    }
    mask
}

pub(crate) fn holds(clauses: &[u64], under: u64, row: u64) -> bool {
    for clause in clauses {
        if clause & row == 0 {
            return false;
        }
    }
    under & row == under
}

pub(crate) fn has_row(clauses: &[u64], under: u64) -> bool {
    for row in ROWS {
        if holds(clauses, under, row) {
            return true;
        }
    }
    false
}
