//! The sections of a file, one after another.

ghost use Rattle.ja_text.specs.Reading.{Gives};
ghost use Rattle.aiger_lines.specs.declared.form.Form.TheVariants.{Binary};
ghost use Rattle.aiger_lines.specs.Header.{IsWithinLimits};
ghost use Rattle.aiger_binary.specs.Reading.{sections_at};

use crate::gates::gates;
use crate::inputs::inputs;
use crate::latches::latches;
use aig_model::Parts;
use aiger_lines::{Header, Read, literals, properties};
use std::alloc::Global;

#[tactic(auto, unfolding(crate::specs::Reading::sections_at))]
pub fn sections(alloc: Global, size: usize, header: &Header, rest: &mut &[u8]) -> Read<Parts>
    requires { IsWithinLimits Binary header.now }
    ensures { Gives (λ p. (p, rest.new.now)) result (sections_at size header.now rest.old.now) }
{
    let vars = header.vars as u32;
    let input_count = header.inputs as u32;
    let latch_count = header.latches as u32;
    let gate_count = header.gates as u32;
    let inputs = inputs(alloc, input_count)?;
    let latches = latches(alloc, vars, input_count + 1, latch_count, size, rest)?;
    let outputs = literals(alloc, vars, header.outputs, size, rest)?;
    let bads = literals(alloc, vars, header.bads, size, rest)?;
    let constraints = literals(alloc, vars, header.constraints, size, rest)?;
    let gates = gates(alloc, input_count + latch_count + 1, gate_count, size, rest)?;
    let bads = properties(alloc, header.bads, bads, &outputs)?;
    Ok(Parts {
        vars,
        inputs,
        latches,
        bads,
        constraints,
        outputs,
        gates,
    })
}
