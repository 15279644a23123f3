//! What a question assumes.

ghost use Rattle.std.specs.Prelude.{◌≡◌, ◌+◌, ◌<◌, ◌^◌, ◌++◌, false, IfOk, OnOk, length};
ghost use Rattle.ja_base.specs.Clauses.{IsBelow};
ghost use Rattle.aig_model.specs.Netlist.{circuit};
ghost use Rattle.ja_project.specs.Latches.{is_foreign};
ghost use Rattle.ic3_query.specs.Under.{bad_literals, step_literals, switches};

use crate::guard::switch;
use ja_base::{Clause, Lit, Lits, Memory};
use ja_project::{Coded, negated_next};
use std::alloc::Global;

/// The switches from the level to the top; none, where the level is above it.
fn switches(alloc: Global, coded: &Coded, level: u32, top: u32) -> Result<Lits, Memory>
    requires { coded.now.design.vars + 1 + top < 2 ^ 31 }
    ensures { IfOk result (λ lits. lits ≡ switches coded.now.design level top) }
{
    let mut lits = Lits::new(alloc);
    for at in level..top + 1 {
        lits.push(switch(coded, at))?;
    }
    Ok(lits)
}

fn add_lits(lits: &mut Lits, more: &[Lit]) -> Result<(), Memory>
    ensures { OnOk result (lits.new ≡ lits.old ++ more.now) }
{
    for lit in more {
        lits.push(*lit)?;
    }
    Ok(())
}

/// That a step from the level breaks no assumption and leads out of the clause.
pub(crate) fn step_literals(
    alloc: Global,
    coded: &Coded,
    level: u32,
    top: u32,
    clause: &Clause,
) -> Result<Lits, Memory>
    requires small { coded.now.design.vars + 1 + top < 2 ^ 31 }
    requires own { is_foreign (circuit coded.now.design) clause.now ≡ false }
    ensures value { IfOk result (λ lits. lits ≡ step_literals coded.now level top clause.now) }
    ensures below { IfOk result (IsBelow (coded.now.design.vars + 1 + top + 1)) }
{
    let mut lits = switches(alloc, coded, level, top)?;
    add_lits(&mut lits, coded.held())?;
    let later = negated_next(alloc, coded, clause)?;
    lits.append(later)?;
    Ok(lits)
}

/// That a step from the level breaks the property.
pub(crate) fn bad_literals(
    alloc: Global,
    coded: &Coded,
    level: u32,
    top: u32,
    prop: u32,
) -> Result<Lits, Memory>
    requires small { coded.now.design.vars + 1 + top < 2 ^ 31 }
    requires within { prop < length coded.now.design.bads }
    ensures value { IfOk result (λ lits. lits ≡ bad_literals coded.now level top prop) }
    ensures below { IfOk result (IsBelow (coded.now.design.vars + 1 + top + 1)) }
{
    let mut lits = switches(alloc, coded, level, top)?;
    lits.push(coded.bad(prop))?;
    Ok(lits)
}
