//! Lines of numbers.

ghost use Rattle.std.specs.Prelude.{◌≡◌, ◌<◌, ◌^◌, length, List};
ghost use Rattle.ja_text.specs.Reading.{Gives};
ghost use Rattle.ja_text.specs.Repeated.{repeated};
ghost use Rattle.aiger_lines.specs.Reading.{place, line_refusal, numbers_at, one_number, used_at, reset_at, literal_at};

use crate::refusal::{Read, ReadRefusal};
use aig_model::Reset;
use ja_base::{Lit, Lits, OrMemory};
use ja_text::{Numbers, line, row};
use std::alloc::Global;

/// Where the rest begins, in a file of so many bytes.
pub fn place(size: usize, rest: &[u8]) -> usize
    ensures { result ≡ place size rest.now }
{
    size.saturating_sub(rest.len())
}

/// What is wrong with a line that is no row of numbers.
fn line_refusal(size: usize, bytes: &[u8]) -> ReadRefusal
    ensures { result ≡ line_refusal size bytes.now }
{
    match line(bytes) {
        Some(_) => ReadRefusal::Line {
            at: place(size, bytes),
        },
        None => ReadRefusal::Short { at: size },
    }
}

/// The numbers of the next line, in a file of so many bytes.
#[tactic(auto, unfolding(crate::specs::Reading::numbers_at))]
pub fn numbers(size: usize, rest: &mut &[u8]) -> Read<Numbers>
    ensures { Gives (λ ns. (ns, rest.new.now)) result (numbers_at size rest.old.now) }
{
    match row(*rest) {
        Some((numbers, after)) => {
            *rest = after;
            Ok(numbers)
        }
        None => Err(OrMemory::Refused(line_refusal(size, *rest))),
    }
}

/// The number of a line that has no other.
pub fn one_number(at: usize, numbers: &Numbers) -> Read<u64>
    ensures { Gives (λ n. n) result (one_number at numbers.now) }
{
    match numbers.as_slice() {
        [number] => Ok(*number),
        _ => Err(OrMemory::Refused(ReadRefusal::Line { at })),
    }
}

/// A literal that a line uses.
pub fn used_literal(vars: u32, at: usize, number: u64) -> Read<Lit>
    requires { vars < 2 ^ 31 }
    ensures { Gives (λ l. l) result (used_at vars at number) }
{
    if number > 2 * u64::from(vars) + 1 {
        return Err(OrMemory::Refused(ReadRefusal::Range { at }));
    }
    Ok(Lit(number as u32))
}

/// What the number says of the latch's first state.
pub fn reset(latch: Lit, at: usize, number: u64) -> Read<Reset>
    ensures { Gives (λ r. r) result (reset_at latch at number) }
{
    match number {
        0 => Ok(Reset::Zero),
        1 => Ok(Reset::One),
        own if own == u64::from(latch.number()) => Ok(Reset::Free),
        _ => Err(OrMemory::Refused(ReadRefusal::Range { at })),
    }
}

/// The literal of the next line.
#[tactic(auto, unfolding(crate::specs::Reading::literal_at))]
pub fn literal(vars: u32, size: usize, rest: &mut &[u8]) -> Read<Lit>
    requires { vars < 2 ^ 31 }
    ensures { Gives (λ l. (l, rest.new.now)) result (literal_at vars size rest.old.now) }
{
    let at = place(size, *rest);
    let numbers = numbers(size, rest)?;
    let number = one_number(at, &numbers)?;
    used_literal(vars, at, number)
}

/// The literals of so many lines.
pub fn literals(alloc: Global, vars: u32, count: u64, size: usize, rest: &mut &[u8]) -> Read<Lits>
    requires { vars < 2 ^ 31 }
    ensures { Gives (λ ls. (ls, rest.new.now)) result
        (repeated (literal_at vars size) count rest.old.now) }
{
    let mut lits = Lits::new(alloc);
    for _ in 0..count {
        lits.push(literal(vars, size, rest)?)?;
    }
    Ok(lits)
}
