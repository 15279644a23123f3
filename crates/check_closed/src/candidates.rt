//! The clauses of a file as candidates.

ghost use Rattle.std.specs.Prelude.{◌≡◌, All, IfOk, IfSome, nat_lt};
ghost use Rattle.std.specs.Bool.{OnTrue};
ghost use Rattle.std.specs.List.{list_all};
ghost use Rattle.ja_base.specs.Literals.{variable};
ghost use Rattle.ja_base.specs.Clauses.{IsBelow};

use ja_base::{ClauseList, Lit, Memory};
use refute_check::Lines;
use std::alloc::Global;

fn are_below(vars: u32, lits: &[Lit]) -> bool
    ensures { result ≡ list_all (λ l. nat_lt (variable l) vars) lits.now }
{
    lits.iter().all(|lit| lit.var().number() < vars)
}

fn is_below(vars: u32, lits: &[Lit]) -> bool
    ensures { OnTrue result (IsBelow vars lits.now) }
{
    are_below(vars, lits)
}

/// The clauses of the lines, if each is over variables below `vars`.
pub(crate) fn candidates_of(
    alloc: Global,
    vars: u32,
    lines: &Lines,
) -> Result<Option<ClauseList>, Memory>
    ensures { IfOk result (λ found. IfSome found (All (IsBelow vars))) }
{
    let mut clauses = ClauseList::new(alloc);
    for line in lines.as_slice() {
        if !is_below(vars, line.clause.lits()) {
            return Ok(None);
        }
        let clause = line.clause.copy(alloc)?;
        clauses.push(clause)?;
    }
    Ok(Some(clauses))
}
