//! How a line joins the log.

ghost use Rattle.std.specs.Prelude.{◌≡◌, ◌∷◌, ◌++◌, [], None, map, IfOk, OnOk};
ghost use Rattle.ja_base.specs.Literals.{negated};
ghost use Rattle.refute_check.specs.Lines.{refusal};
ghost use Rattle.sat_watch.specs.Stores.{IsThere};
ghost use Rattle.sat_cdcl.specs.Files.{list_of, IsKept};

use crate::database::Database;
use ja_base::{Lits, Memory};
use refute_check::{Line, Lines};
use sat_plain::negations;
use std::alloc::Global;

/// The line joins the log, and its clause takes the next number and a slot, which is told.
pub(crate) fn log(
    alloc: Global,
    db: &mut Database,
    lines: &mut Lines,
    line: Line,
) -> Result<u32, Memory>
    requires { refusal db.old.watched.trail.vars (list_of db.old) line.clause line.hints ≡ None }
    ensures list { OnOk result (list_of db.new ≡ list_of db.old ++ line.clause ∷ []) }
    ensures lines { OnOk result (lines.new ≡ lines.old ++ line ∷ []) }
    ensures there { IfOk result (λ slot. IsThere db.new.watched.store slot line.clause) }
    ensures trail { db.new.watched.trail ≡ db.old.watched.trail }
    ensures kept { IsKept db.old db.new }
{
    let clause = line.clause.copy(alloc)?;
    lines.push(line)?;
    let slot = db.put(clause)?;
    Ok(slot)
}

/// The line joins the log as the last one, and the literals that it refutes are told.
pub(crate) fn close(
    alloc: Global,
    db: &mut Database,
    lines: &mut Lines,
    line: Line,
) -> Result<Lits, Memory>
    requires { refusal db.old.watched.trail.vars (list_of db.old) line.clause line.hints ≡ None }
    ensures core { IfOk result (λ core. core ≡ map negated line.clause) }
    ensures list { OnOk result (list_of db.new ≡ list_of db.old ++ line.clause ∷ []) }
    ensures lines { OnOk result (lines.new ≡ lines.old ++ line ∷ []) }
    ensures kept { IsKept db.old db.new }
{
    let core = negations(alloc, line.clause.lits())?;
    log(alloc, db, lines, line)?;
    Ok(core)
}
