//! The clauses of a report.

ghost use Rattle.std.specs.Prelude.{◌≡◌, ◌≤◌, ◌+◌, ◌*◌, ◌&&◌, ◌↔◌, nat_le, codes, length, IfOk, IsTrue};
ghost use Rattle.std.specs.List.{list_all};
ghost use Rattle.std.specs.List.Sorted.{IsStrictlyIncreasing};
ghost use Rattle.report.specs.Reports.{IsReportClause, clause_words};
ghost use Rattle.report.specs.Forms.{Reads};
ghost use Rattle.report.specs.Numbers.{AreNumbers, IsFound, TakesAll};
ghost use Rattle.report.specs.Sections.{IsHeldClause, clause_form, clause_lines_form, clauses_form};

use crate::line::Read;
use crate::take::{bad, take_count};
use crate::tokens::{small, small_behind};
use ja_base::{Clause, ClauseList, Lit, Memory};
use ja_text::line;
use std::alloc::Global;

/// Puts the numbers that stand here, each behind a space, behind those that are there.
fn fill<'a>(lits: &mut Vec<Lit>, bytes: &'a [u8]) -> Result<&'a [u8], Memory>
    ensures { IfOk result
        (λ rest. TakesAll (codes " ") bytes.now lits.old.items lits.new.items rest.now) }
{
    let mut rest = bytes;
    while let Some((number, after)) = small_behind(b" ", rest) {
        lits.push(Lit(number))?;
        rest = after;
    }
    Ok(rest)
}

/// Whether the line is numbers. They come in place of those that are there.
fn numbers_of(lits: &mut Vec<Lit>, line: &[u8]) -> Result<bool, Memory>
    ensures { IfOk result (λ are. AreNumbers are line.now lits.new.items) }
{
    lits.clear();
    if line.is_empty() {
        return Ok(true);
    }
    let Some((first, rest)) = small(line) else {
        return Ok(false);
    };
    lits.push(Lit(first))?;
    let rest = fill(lits, rest)?;
    Ok(rest.is_empty())
}

fn ascend(lits: &[Lit]) -> bool
    ensures { IsTrue result ↔ IsStrictlyIncreasing lits.now }
{
    for at in 1..lits.len() {
        if lits[at - 1].number() >= lits[at].number() {
            return false;
        }
    }
    true
}

fn are_of_variables(lits: &[Lit], vars: u32) -> bool
    ensures { result ≡ list_all (λ l. nat_le 2 l && nat_le l (2 * vars + 1)) lits.now }
{
    let most = 2 * u64::from(vars) + 1;
    lits.iter()
        .all(|lit| 2 <= lit.number() && u64::from(lit.number()) <= most)
}

fn is_clause(lits: &[Lit], vars: u32) -> bool
    ensures { IsTrue result ↔ IsReportClause vars lits.now }
{
    ascend(lits) && are_of_variables(lits, vars)
}

/// The clause of a line, if it is one.
fn clause_of(
    alloc: Global,
    lits: &mut Vec<Lit>,
    vars: u32,
    line: &[u8],
) -> Result<Option<Clause>, Memory>
    ensures { IfOk result (IsFound (IsHeldClause vars) clause_words line.now) }
{
    if !numbers_of(lits, line)? {
        return Ok(None);
    }
    if !is_clause(lits.as_slice(), vars) {
        return Ok(None);
    }
    let clause = Clause::from_lits(alloc, lits.as_slice())?;
    Ok(Some(clause))
}

fn take_clause<'a>(
    alloc: Global,
    lits: &mut Vec<Lit>,
    vars: u32,
    bytes: &'a [u8],
) -> Read<(Clause, &'a [u8])>
    ensures { Reads (clause_form vars) (λ x. x.0) (λ x. x.1.now) bytes.now result }
{
    let Some((line, rest)) = line(bytes) else {
        return Err(bad(bytes));
    };
    let Some(clause) = clause_of(alloc, lits, vars, line)? else {
        return Err(bad(bytes));
    };
    Ok((clause, rest))
}

/// So many clauses. One buffer holds the literals of the clause that is read.
fn take_lines(alloc: Global, vars: u32, count: u32, bytes: &[u8]) -> Read<(ClauseList, &[u8])>
    ensures { Reads (clause_lines_form vars count) (λ x. x.0) (λ x. x.1.now) bytes.now result }
{
    let mut lits = Vec::new(alloc);
    let mut clauses = ClauseList::new(alloc);
    let mut rest = bytes;
    for _ in 0..count {
        let (clause, after) = take_clause(alloc, &mut lits, vars, rest)?;
        clauses.push(clause)?;
        rest = after;
    }
    Ok((clauses, rest))
}

/// Their number and the clauses.
pub fn take_clauses(alloc: Global, vars: u32, bytes: &[u8]) -> Read<(ClauseList, &[u8])>
    ensures { Reads (clauses_form vars) (λ x. (length x.0, x.0)) (λ x. x.1.now) bytes.now result }
{
    let (count, rest) = take_count(bytes, b"clauses ")?;
    let (clauses, rest) = take_lines(alloc, vars, count, rest)?;
    Ok((clauses, rest))
}
