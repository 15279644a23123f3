//! Parts of a clause: those that a core needs, and those without a literal.

ghost use Rattle.std.specs.Prelude.{◌≡◌, ◌+◌, ◌++◌, ◌∷◌, [], ℕ, true, false, if◌then◌else◌, filter, not, ◌<◌, Contains, IfOk, OnOk};
ghost use Rattle.ja_base.specs.Clauses.{IsBelow};
ghost use Rattle.ja_base.specs.Literals.{variable};
ghost use Rattle.aig_model.specs.Netlist.{circuit};
ghost use Rattle.ja_project.specs.Latches.{is_foreign, is_over_latch};
ghost use Rattle.ja_project.specs.Start.{agrees_with_reset, starts};
ghost use Rattle.ic3_general.specs.Lifting.{without};
ghost use Rattle.ic3_general.specs.Shrinking.{IsCut, is_rested_on};

use ja_base::{Clause, Lit, Lits, Memory};
use ja_project::{Coded, ResetTable};
use std::alloc::Global;

fn push_if(keep: bool, lit: Lit, lits: &mut Lits) -> Result<(), Memory>
    ensures { OnOk result (lits.new ≡ lits.old ++ (if keep then lit ∷ [] else [])) }
{
    if !keep {
        return Ok(());
    }
    lits.push(lit)?;
    Ok(())
}

/// The clause without a literal.
pub(crate) fn without(alloc: Global, clause: &Clause, lit: Lit) -> Result<Clause, Memory>
    ensures { IfOk result (λ part. part ≡ without lit clause.now) }
{
    let mut lits = Lits::new(alloc);
    for other in clause.lits() {
        push_if(*other != lit, *other, &mut lits)?;
    }
    let part = Clause::from_lits(alloc, lits.as_slice())?;
    Ok(part)
}

fn is_rested_on(coded: &Coded, core: &Lits, lit: Lit) -> bool
    requires { is_over_latch (circuit coded.now.design) lit ≡ true }
    ensures { result ≡ is_rested_on coded.now.design core.now lit }
{
    let later = coded.next(lit).not();
    core.as_slice().contains(&later)
}

/// The literals whose negations one step later are in the core.
fn rested_on(alloc: Global, coded: &Coded, clause: &Clause, core: &Lits) -> Result<Lits, Memory>
    requires { is_foreign (circuit coded.now.design) clause.now ≡ false }
    ensures { IfOk result
        (λ lits. lits ≡ filter (is_rested_on coded.now.design core.now) clause.now) }
{
    let mut lits = Lits::new(alloc);
    for lit in clause.lits() {
        push_if(is_rested_on(coded, core, *lit), *lit, &mut lits)?;
    }
    Ok(lits)
}

fn literal_starts(alloc: Global, table: &ResetTable, lit: Lit) -> Result<bool, Memory>
    requires { variable lit < table.now.vars + 1 }
    ensures { IfOk result (λ starts. starts ≡ agrees_with_reset (circuit table.now) lit) }
{
    let clause = Clause::from_lits(alloc, &[lit])?;
    Ok(table.starts(&clause))
}

/// A literal of the clause that agrees with a reset.
fn starting_literal(alloc: Global, table: &ResetTable, clause: &Clause) -> Result<Lit, Memory>
    requires below { IsBelow (table.now.vars + 1) clause.now }
    requires begins { starts (circuit table.now) clause.now ≡ true }
    ensures among { IfOk result (Contains clause.now) }
    ensures starts { IfOk result (λ lit. agrees_with_reset (circuit table.now) lit ≡ true) }
{
    for lit in clause.lits() {
        if literal_starts(alloc, table, *lit)? {
            return Ok(*lit);
        }
    }
    unreachable!()
}

/// The part of the clause that the core rests on, and one literal more where an initial row would falsify that part.
pub(crate) fn cut(
    alloc: Global,
    coded: &Coded,
    table: &ResetTable,
    clause: &Clause,
    core: &Lits,
) -> Result<Clause, Memory>
    requires table { table.now ≡ coded.now.design }
    requires own { is_foreign (circuit coded.now.design) clause.now ≡ false }
    requires begins { starts (circuit coded.now.design) clause.now ≡ true }
    ensures { IfOk result (IsCut coded.now.design core.now clause.now) }
{
    let _task = coded.task();
    let mut lits = rested_on(alloc, coded, clause, core)?;
    let part = Clause::from_lits(alloc, lits.as_slice())?;
    if table.starts(&part) {
        return Ok(part);
    }
    lits.push(starting_literal(alloc, table, clause)?)?;
    let part = Clause::from_lits(alloc, lits.as_slice())?;
    Ok(part)
}
