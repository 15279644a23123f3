//! A log is taken by a checker.

ghost use Rattle.std.specs.Prelude.{◌≡◌, ◌≤◌, length, nat_lt};
ghost use Rattle.std.specs.List.{list_all};
ghost use Rattle.ja_base.specs.Literals.{variable};
ghost use Rattle.ja_base.specs.Clauses.{IsBelow};

use ja_base::{Lit, Memory};
use refute_check::{Checker, Lines};
use std::alloc::Global;

/// The variables that a checker is given.
const VARS: u32 = 1_048_576;

/// What came of a log.
#[derive(Clone, Copy, Debug, PartialEq, Eq)]
pub enum Checked {
    Accepted { lines: u32 },
    Refused { line: u32, hint: u32 },
    /// A clause of the list has a variable that is too large.
    Foreign,
}

fn is_below(lits: &[Lit]) -> bool
    ensures { result ≡ list_all (λ l. nat_lt (variable l) VARS) lits.now }
{
    lits.iter().all(|lit| lit.var().number() < VARS)
}

/// Adds the clauses, if none has a variable that is too large.
fn add_all(alloc: Global, checker: &mut Checker, clauses: &Lines) -> Result<bool, Memory>
    requires { checker.old.vars ≡ VARS }
    ensures { checker.new.vars ≡ VARS }
{
    for line in clauses.as_slice() {
        if !is_below(line.clause.lits()) {
            return Ok(false);
        }
        checker.add(alloc, &line.clause)?;
    }
    Ok(true)
}

fn take_all(checker: &mut Checker, log: Lines) -> Checked
    requires { length log ≤ checker.old.spare }
{
    let mut lines = 0u32;
    for line in log.into_vec() {
        match checker.line(line) {
            Ok(_) => lines = lines.saturating_add(1),
            Err(refused) => {
                return Checked::Refused {
                    line: lines,
                    hint: refused.hint,
                };
            }
        }
    }
    Checked::Accepted { lines }
}

pub fn check(alloc: Global, clauses: &Lines, log: Lines) -> Result<Checked, Memory> {
    let mut checker = Checker::new(alloc, VARS)?;
    if !add_all(alloc, &mut checker, clauses)? {
        return Ok(Checked::Foreign);
    }
    checker.reserve(log.len())?;
    Ok(take_all(&mut checker, log))
}
