//! The sections of a file, one after another.

ghost use Rattle.std.specs.Prelude.{◌^◌, ◌<◌};
ghost use Rattle.ja_text.specs.Reading.{Gives};
ghost use Rattle.aiger_ascii.specs.Reading.{sections_at};

use crate::gates::gates;
use crate::inputs::inputs;
use crate::latches::latches;
use aig_model::Parts;
use aiger_lines::{Header, Read, literals, properties};
use ja_base::Row;
use std::alloc::Global;

#[tactic(auto, unfolding(crate::specs::Reading::sections_at))]
pub fn sections(alloc: Global, size: usize, header: &Header, rest: &mut &[u8]) -> Read<Parts>
    requires { header.now.vars < 2 ^ 31 }
    ensures { Gives (λ p. (p, rest.new.now)) result (sections_at size header.now rest.old.now) }
{
    let vars = header.vars as u32;
    let mut seen = Row::zeros(alloc, vars + 1)?;
    let inputs = inputs(alloc, vars, header.inputs, size, &mut seen, rest)?;
    let latches = latches(alloc, vars, header.latches, size, &mut seen, rest)?;
    let outputs = literals(alloc, vars, header.outputs, size, rest)?;
    let bads = literals(alloc, vars, header.bads, size, rest)?;
    let constraints = literals(alloc, vars, header.constraints, size, rest)?;
    let gates = gates(alloc, vars, header.gates, size, &mut seen, rest)?;
    let bads = properties(alloc, header.bads, bads, &outputs)?;
    Ok(Parts {
        vars,
        inputs,
        latches,
        bads,
        constraints,
        outputs,
        gates,
    })
}
