ghost use Rattle.std.specs.Prelude.{◌≡◌, ◌+◌, ◌^◌, ◌<◌, ◌≤◌, length, IfOk};
ghost use Rattle.ja_text.specs.Reading.{Gives};
ghost use Rattle.ja_text.specs.Repeated.{repeated};
ghost use Rattle.ja_base.specs.Literals.{variable};
ghost use Rattle.aiger_ascii.specs.Reading.{latch_numbers, latch_from, latch_at};

use crate::define::{define, new_literal};
use aig_model::{Latch, Latches};
use aiger_lines::{Read, ReadRefusal, numbers, place, reset, used_literal};
use ja_base::{OrMemory, Row};
use ja_text::Numbers;
use std::alloc::Global;

/// A latch's literal, the literal of its next state, and its reset, which is 0 where it is left out.
fn split(at: usize, numbers: &Numbers) -> Read<(u64, u64, u64)>
    ensures { Gives (λ x. x) result (latch_numbers at numbers.now) }
{
    match numbers.as_slice() {
        [lit, next] => Ok((*lit, *next, 0)),
        [lit, next, reset] => Ok((*lit, *next, *reset)),
        _ => Err(OrMemory::Refused(ReadRefusal::Line { at })),
    }
}

#[tactic(auto, unfolding(crate::specs::Reading::latch_from))]
fn latch_of(vars: u32, at: usize, numbers: &Numbers) -> Read<Latch>
    requires { vars < 2 ^ 31 }
    ensures read { Gives (λ k. k) result (latch_from vars at numbers.now) }
    ensures within { IfOk result (λ k. variable k.lit ≤ vars) }
{
    let (lit, next, number) = split(at, numbers)?;
    let lit = new_literal(vars, at, lit)?;
    let next = used_literal(vars, at, next)?;
    let reset = reset(lit, at, number)?;
    Ok(Latch { lit, next, reset })
}

#[tactic(auto, unfolding(crate::specs::Reading::latch_at))]
fn latch(vars: u32, size: usize, seen: &mut Row, rest: &mut &[u8]) -> Read<Latch>
    requires small { vars < 2 ^ 31 }
    requires wide { length seen.old ≡ vars + 1 }
    ensures read { Gives (λ k. (k, record { seen = seen.new; rest = rest.new.now })) result
        (latch_at vars size (record { seen = seen.old; rest = rest.old.now })) }
    ensures sized { length seen.new ≡ length seen.old }
{
    let at = place(size, *rest);
    let numbers = numbers(size, rest)?;
    let latch = latch_of(vars, at, &numbers)?;
    define(seen, at, latch.lit)?;
    Ok(latch)
}

pub fn latches(
    alloc: Global,
    vars: u32,
    count: u64,
    size: usize,
    seen: &mut Row,
    rest: &mut &[u8],
) -> Read<Latches>
    requires small { vars < 2 ^ 31 }
    requires wide { length seen.old ≡ vars + 1 }
    ensures read { Gives (λ ks. (ks, record { seen = seen.new; rest = rest.new.now })) result
        (repeated (latch_at vars size) count (record { seen = seen.old; rest = rest.old.now })) }
    ensures sized { length seen.new ≡ length seen.old }
{
    let mut latches = Latches::new(alloc);
    for _ in 0..count {
        latches.push(latch(vars, size, seen, rest)?)?;
    }
    Ok(latches)
}
