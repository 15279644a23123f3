//! One line.

ghost use Rattle.std.specs.Prelude.{◌≡◌, ◌<◌, ◌↔◌, IfOk, IfSome, IsTrue, MatchOption, length};
ghost use Rattle.std.specs.List.Sorted.{IsStrictlyIncreasing};
ghost use Rattle.refute_text.specs.RefutationText.{TakesLine};
ghost use Rattle.refute_text.specs.Reading.{TakesNone};

use crate::numbers::take_numbers;
use ja_base::{Clause, Lit, Memory};
use ja_text::{newline, word};
use refute_check::Line;
use std::alloc::{AllocError, Global};

fn ascends(numbers: &[u32]) -> bool
    ensures { IsTrue result ↔ IsStrictlyIncreasing numbers.now }
{
    for at in 1..numbers.len() {
        if numbers[at - 1] >= numbers[at] {
            return false;
        }
    }
    true
}

fn lits_of(alloc: Global, numbers: &[u32]) -> Result<Vec<Lit>, AllocError>
    ensures { IfOk result (λ lits. lits.items ≡ numbers.now) }
{
    numbers.iter().map(|number| Lit(*number)).collect(alloc)
}

/// The clause of literals that ascend.
fn clause_of(alloc: Global, numbers: &[u32]) -> Result<Clause, Memory>
    requires { IsStrictlyIncreasing numbers.now }
    ensures { IfOk result (λ clause. clause ≡ numbers.now) }
{
    let lits = lits_of(alloc, numbers)?;
    let clause = Clause::from_lits(alloc, lits.as_slice())?;
    Ok(clause)
}

/// The line at the front, if one stands there, and what follows it.
pub fn take_line(alloc: Global, bytes: &[u8]) -> Result<Option<(Line, &[u8])>, Memory>
    ensures read { IfOk result (λ found. MatchOption found
        (TakesNone TakesLine bytes.now) (λ x. TakesLine bytes.now x.0 x.1.now)) }
    ensures shorter { IfOk result (λ found. IfSome found (λ x. length x.1.now < length bytes.now)) }
{
    let (lits, rest) = take_numbers(alloc, bytes)?;
    let Some(rest) = word(rest, b" ;") else {
        return Ok(None);
    };
    if !ascends(lits.as_slice()) {
        return Ok(None);
    }
    let (hints, rest) = take_numbers(alloc, rest)?;
    let Some(rest) = newline(rest) else {
        return Ok(None);
    };
    let clause = clause_of(alloc, lits.as_slice())?;
    Ok(Some((Line { clause, hints }, rest)))
}
