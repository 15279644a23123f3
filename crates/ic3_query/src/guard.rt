//! Switches, and clauses that count only under one.

ghost use Rattle.std.specs.Prelude.{◌≡◌, ◌+◌, ◌<◌, ◌^◌, ◌∷◌, [], IfOk};
ghost use Rattle.ic3_query.specs.Switches.{off, switch};
ghost use Rattle.ic3_query.specs.Under.{IsGuarded};

use ja_base::{Clause, Lit, Lits, Memory, Var};
use ja_project::Coded;
use std::alloc::Global;

/// The literal that the switch of the level is on.
pub(crate) fn switch(coded: &Coded, level: u32) -> Lit
    requires { coded.now.design.vars + 1 + level < 2 ^ 31 }
    ensures { result ≡ switch coded.now.design level }
{
    Lit::new(Var(coded.vars() + level), false)
}

/// The literal that the switch of the level is off.
pub(crate) fn off(coded: &Coded, level: u32) -> Lit
    requires { coded.now.design.vars + 1 + level < 2 ^ 31 }
    ensures { result ≡ off coded.now.design level }
{
    Lit::new(Var(coded.vars() + level), true)
}

/// The clause with the literal that the switch is off.
pub(crate) fn guarded(
    alloc: Global,
    coded: &Coded,
    level: u32,
    clause: &Clause,
) -> Result<Clause, Memory>
    requires { coded.now.design.vars + 1 + level < 2 ^ 31 }
    ensures { IfOk result (IsGuarded coded.now.design level clause.now) }
{
    let mut lits = Lits::new(alloc);
    for lit in clause.lits() {
        lits.push(*lit)?;
    }
    lits.push(off(coded, level))?;
    let guarded = Clause::from_lits(alloc, lits.as_slice())?;
    Ok(guarded)
}
