//! Two lists become one.

ghost use Rattle.std.specs.Prelude.{◌≡◌, IfOk};
ghost use Rattle.ja_base.specs.ClauseSets.{fresh, joined};
ghost use Rattle.inv_cert.specs.Known.{Knows};

use ja_base::{ClauseList, Lit, Memory};
use std::alloc::Global;
use std::collections::BTreeSet;

/// The first list, and behind it the clauses of the second that it does not have, each once.
pub(crate) fn joined(
    alloc: Global,
    first: &ClauseList,
    second: &ClauseList,
) -> Result<ClauseList, Memory>
    ensures { IfOk result (λ both. both ≡ joined first.now second.now) }
{
    let mut both = copied(alloc, first)?;
    let added = fresh(alloc, first, second)?;
    both.append(added)?;
    Ok(both)
}

/// The clauses of the second list that the first does not have, each once.
pub(crate) fn fresh<'a>(
    alloc: Global,
    first: &'a ClauseList,
    second: &'a ClauseList,
) -> Result<ClauseList, Memory>
    ensures { IfOk result (λ added. added ≡ fresh first.now second.now) }
{
    let mut known = known(alloc, first)?;
    let mut added = ClauseList::new(alloc);
    for clause in second.as_slice() {
        if known.insert(clause.lits())? {
            added.push(clause.copy(alloc)?)?;
        }
    }
    Ok(added)
}

pub(crate) fn copied(alloc: Global, clauses: &ClauseList) -> Result<ClauseList, Memory>
    ensures { IfOk result (λ copy. copy ≡ clauses.now) }
{
    let mut copy = ClauseList::new(alloc);
    for clause in clauses.as_slice() {
        copy.push(clause.copy(alloc)?)?;
    }
    Ok(copy)
}

/// The literals of each clause. A clause is looked up in them without a pass over the list.
fn known<'a>(alloc: Global, clauses: &'a ClauseList) -> Result<BTreeSet<&'a [Lit]>, Memory>
    ensures { IfOk result (Knows clauses.now) }
{
    let mut known = BTreeSet::new(alloc);
    for clause in clauses.as_slice() {
        known.insert(clause.lits())?;
    }
    Ok(known)
}
