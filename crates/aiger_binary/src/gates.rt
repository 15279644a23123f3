ghost use Rattle.std.specs.Prelude.{◌≡◌, ◌+◌, ◌*◌, ◌^◌, ◌<◌};
ghost use Rattle.ja_text.specs.Reading.{Gives};
ghost use Rattle.ja_text.specs.Repeated.{repeated};
ghost use Rattle.aiger_binary.specs.Reading.{right_at, gate_at};

use crate::delta::delta;
use aig_model::{AndGate, AndGates};
use aiger_lines::{Read, ReadRefusal, place};
use ja_base::{Lit, OrMemory};
use std::alloc::Global;

/// The literal that is below `above` by the next delta, and at least by `least`.
#[tactic(auto, unfolding(crate::specs::Reading::right_at))]
fn right(least: u64, size: usize, above: Lit, rest: &mut &[u8]) -> Read<Lit>
    ensures { Gives (λ l. (l, rest.new.now)) result (right_at least size above rest.old.now) }
{
    let at = place(size, *rest);
    let (delta, after) = delta(size, *rest)?;
    *rest = after;
    if delta < least || delta > u64::from(above.number()) {
        return Err(OrMemory::Refused(ReadRefusal::Order { at }));
    }
    Ok(Lit(above.number() - delta as u32))
}

#[tactic(auto, unfolding(crate::specs::Reading::gate_at))]
fn gate(lhs: Lit, size: usize, rest: &mut &[u8]) -> Read<AndGate>
    ensures { Gives (λ g. (g, record { lit = lhs + 2; rest = rest.new.now })) result
        (gate_at size (record { lit = lhs; rest = rest.old.now })) }
{
    let rhs0 = right(1, size, lhs, rest)?;
    let rhs1 = right(0, size, rhs0, rest)?;
    Ok(AndGate { lhs, rhs0, rhs1 })
}

/// So many gates, whose variables begin with `first`.
pub fn gates(alloc: Global, first: u32, count: u32, size: usize, rest: &mut &[u8]) -> Read<AndGates>
    requires { first + count < 2 ^ 30 }
    ensures { Gives (λ gs. (gs, record { lit = 2 * (first + count); rest = rest.new.now })) result
        (repeated (gate_at size) count (record { lit = 2 * first; rest = rest.old.now })) }
{
    let mut gates = AndGates::new(alloc);
    for index in 0..count {
        let lhs = Lit(2 * (first + index));
        gates.push(gate(lhs, size, rest)?)?;
    }
    Ok(gates)
}
