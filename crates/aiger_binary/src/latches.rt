ghost use Rattle.std.specs.Prelude.{◌≡◌, ◌+◌, ◌*◌, ◌^◌, ◌<◌};
ghost use Rattle.ja_text.specs.Reading.{Gives};
ghost use Rattle.ja_text.specs.Repeated.{repeated};
ghost use Rattle.aiger_binary.specs.Reading.{latch_numbers, latch_from, latch_at};

use aig_model::{Latch, Latches};
use aiger_lines::{Read, ReadRefusal, numbers, place, reset, used_literal};
use ja_base::{Lit, OrMemory};
use ja_text::Numbers;
use std::alloc::Global;

/// The literal of a latch's next state, and its reset, which is 0 where it is left out.
fn split(at: usize, numbers: &Numbers) -> Read<(u64, u64)>
    ensures { Gives (λ x. x) result (latch_numbers at numbers.now) }
{
    match numbers.as_slice() {
        [next] => Ok((*next, 0)),
        [next, reset] => Ok((*next, *reset)),
        _ => Err(OrMemory::Refused(ReadRefusal::Line { at })),
    }
}

#[tactic(auto, unfolding(crate::specs::Reading::latch_from))]
fn latch_of(vars: u32, lit: Lit, at: usize, numbers: &Numbers) -> Read<Latch>
    requires { vars < 2 ^ 31 }
    ensures { Gives (λ k. k) result (latch_from vars lit at numbers.now) }
{
    let (next, number) = split(at, numbers)?;
    let next = used_literal(vars, at, next)?;
    let reset = reset(lit, at, number)?;
    Ok(Latch { lit, next, reset })
}

#[tactic(auto, unfolding(crate::specs::Reading::latch_at))]
fn latch(vars: u32, lit: Lit, size: usize, rest: &mut &[u8]) -> Read<Latch>
    requires { vars < 2 ^ 31 }
    ensures { Gives (λ k. (k, record { lit = lit + 2; rest = rest.new.now })) result
        (latch_at vars size (record { lit = lit; rest = rest.old.now })) }
{
    let at = place(size, *rest);
    let numbers = numbers(size, rest)?;
    latch_of(vars, lit, at, &numbers)
}

/// The latches of so many lines, whose variables begin with `first`.
pub fn latches(
    alloc: Global,
    vars: u32,
    first: u32,
    count: u32,
    size: usize,
    rest: &mut &[u8],
) -> Read<Latches>
    requires small { vars < 2 ^ 31 }
    requires fit { first + count < 2 ^ 30 }
    ensures { Gives (λ ks. (ks, record { lit = 2 * (first + count); rest = rest.new.now })) result
        (repeated (latch_at vars size) count (record { lit = 2 * first; rest = rest.old.now })) }
{
    let mut latches = Latches::new(alloc);
    for index in 0..count {
        let lit = Lit(2 * (first + index));
        latches.push(latch(vars, lit, size, rest)?)?;
    }
    Ok(latches)
}
