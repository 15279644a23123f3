//! The literals of a clause one step later.

ghost use Rattle.std.specs.Prelude.{◌≡◌, ◌+◌, false, IfOk};
ghost use Rattle.ja_base.specs.Clauses.{IsBelow};
ghost use Rattle.aig_model.specs.Netlist.{circuit};
ghost use Rattle.ja_project.specs.CodedClauses.{negated_next};
ghost use Rattle.ja_project.specs.Latches.{is_foreign};

use crate::coded::Coded;
use ja_base::{Clause, Lits, Memory};
use std::alloc::Global;

/// That one step later each literal of the clause is 0: what a proof of the clause refutes.
pub fn negated_next(alloc: Global, coded: &Coded, clause: &Clause) -> Result<Lits, Memory>
    requires { is_foreign (circuit coded.now.design) clause.now ≡ false }
    ensures value { IfOk result (λ under. under ≡ negated_next coded.now.design clause.now) }
    ensures below { IfOk result (IsBelow (coded.now.design.vars + 1)) }
{
    let mut under = Lits::new(alloc);
    for lit in clause.lits() {
        under.push(coded.next(*lit).not())?;
    }
    Ok(under)
}
