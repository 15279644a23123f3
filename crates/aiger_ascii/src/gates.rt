ghost use Rattle.std.specs.Prelude.{◌≡◌, ◌+◌, ◌^◌, ◌<◌, ◌≤◌, length, IfOk};
ghost use Rattle.ja_text.specs.Reading.{Gives};
ghost use Rattle.ja_text.specs.Repeated.{repeated};
ghost use Rattle.ja_base.specs.Literals.{variable};
ghost use Rattle.aiger_ascii.specs.Reading.{gate_numbers, gate_from, gate_at};

use crate::define::{define, new_literal};
use aig_model::{AndGate, AndGates};
use aiger_lines::{Read, ReadRefusal, numbers, place, used_literal};
use ja_base::{OrMemory, Row};
use ja_text::Numbers;
use std::alloc::Global;

/// A gate's left side, and its right sides.
fn split(at: usize, numbers: &Numbers) -> Read<(u64, u64, u64)>
    ensures { Gives (λ x. x) result (gate_numbers at numbers.now) }
{
    match numbers.as_slice() {
        [lhs, rhs0, rhs1] => Ok((*lhs, *rhs0, *rhs1)),
        _ => Err(OrMemory::Refused(ReadRefusal::Line { at })),
    }
}

#[tactic(auto, unfolding(crate::specs::Reading::gate_from))]
fn gate_of(vars: u32, at: usize, numbers: &Numbers) -> Read<AndGate>
    requires { vars < 2 ^ 31 }
    ensures read { Gives (λ g. g) result (gate_from vars at numbers.now) }
    ensures within { IfOk result (λ g. variable g.lhs ≤ vars) }
{
    let (lhs, rhs0, rhs1) = split(at, numbers)?;
    let lhs = new_literal(vars, at, lhs)?;
    let rhs0 = used_literal(vars, at, rhs0)?;
    let rhs1 = used_literal(vars, at, rhs1)?;
    Ok(AndGate { lhs, rhs0, rhs1 })
}

#[tactic(auto, unfolding(crate::specs::Reading::gate_at))]
fn gate(vars: u32, size: usize, seen: &mut Row, rest: &mut &[u8]) -> Read<AndGate>
    requires small { vars < 2 ^ 31 }
    requires wide { length seen.old ≡ vars + 1 }
    ensures read { Gives (λ g. (g, record { seen = seen.new; rest = rest.new.now })) result
        (gate_at vars size (record { seen = seen.old; rest = rest.old.now })) }
    ensures sized { length seen.new ≡ length seen.old }
{
    let at = place(size, *rest);
    let numbers = numbers(size, rest)?;
    let gate = gate_of(vars, at, &numbers)?;
    define(seen, at, gate.lhs)?;
    Ok(gate)
}

pub fn gates(
    alloc: Global,
    vars: u32,
    count: u64,
    size: usize,
    seen: &mut Row,
    rest: &mut &[u8],
) -> Read<AndGates>
    requires small { vars < 2 ^ 31 }
    requires wide { length seen.old ≡ vars + 1 }
    ensures read { Gives (λ gs. (gs, record { seen = seen.new; rest = rest.new.now })) result
        (repeated (gate_at vars size) count (record { seen = seen.old; rest = rest.old.now })) }
    ensures sized { length seen.new ≡ length seen.old }
{
    let mut gates = AndGates::new(alloc);
    for _ in 0..count {
        gates.push(gate(vars, size, seen, rest)?)?;
    }
    Ok(gates)
}
