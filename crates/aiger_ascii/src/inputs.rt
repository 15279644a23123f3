ghost use Rattle.std.specs.Prelude.{◌≡◌, ◌+◌, ◌^◌, ◌<◌, length};
ghost use Rattle.ja_text.specs.Reading.{Gives};
ghost use Rattle.ja_text.specs.Repeated.{repeated};
ghost use Rattle.aiger_ascii.specs.Reading.{input_at};

use crate::define::{define, new_literal};
use aiger_lines::{Read, numbers, one_number, place};
use ja_base::{Lit, Lits, Row};
use std::alloc::Global;

#[tactic(auto, unfolding(crate::specs::Reading::input_at))]
fn input(vars: u32, size: usize, seen: &mut Row, rest: &mut &[u8]) -> Read<Lit>
    requires small { vars < 2 ^ 31 }
    requires wide { length seen.old ≡ vars + 1 }
    ensures read { Gives (λ l. (l, record { seen = seen.new; rest = rest.new.now })) result
        (input_at vars size (record { seen = seen.old; rest = rest.old.now })) }
    ensures sized { length seen.new ≡ length seen.old }
{
    let at = place(size, *rest);
    let numbers = numbers(size, rest)?;
    let number = one_number(at, &numbers)?;
    let lit = new_literal(vars, at, number)?;
    define(seen, at, lit)?;
    Ok(lit)
}

pub fn inputs(
    alloc: Global,
    vars: u32,
    count: u64,
    size: usize,
    seen: &mut Row,
    rest: &mut &[u8],
) -> Read<Lits>
    requires small { vars < 2 ^ 31 }
    requires wide { length seen.old ≡ vars + 1 }
    ensures read { Gives (λ ls. (ls, record { seen = seen.new; rest = rest.new.now })) result
        (repeated (input_at vars size) count (record { seen = seen.old; rest = rest.old.now })) }
    ensures sized { length seen.new ≡ length seen.old }
{
    let mut lits = Lits::new(alloc);
    for _ in 0..count {
        lits.push(input(vars, size, seen, rest)?)?;
    }
    Ok(lits)
}
